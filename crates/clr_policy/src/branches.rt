// The rules along the branches of a policy.
ghost use Rattle.std.specs.Prelude.{◌≡◌, ◌≤◌, ◌<◌, ◌+◌, ◌-◌, ℕ, suc, min, length, List, [], ◌∷◌, ◌++◌};
ghost use Rattle.clr_rules.specs.Rules.{HasSummary};
ghost use Rattle.clr_policy.specs.Written.{IsPolicy, IsPolicyFor, branches, written};
ghost use Rattle.clr_policy.specs.PolicyFile.{most_branches};
ghost use Rattle.clr_policy.specs.Breaches.{Finds, Goes, behind, first_breach};

use crate::policy::Policy;
use clr_rules::{Rule, Summary};
use clr_season::Season;

/// A branch of a policy that breaks a rule.
#[derive(Clone, Copy)]
pub struct Breach {
    /// The branch, numbered from 1 in the order in which they end, `yes` before `no`, and held at 4,294,967,295.
    pub branch: u32,
    /// The first rule that its first week breaks which breaks one.
    pub rule: Rule,
}

// The summary after one week more, or the first rule that the week breaks.
fn week_after(season: &Season, done: u32, s: Summary, rung: u32) -> Result<Summary, Rule>
    requires early { done < season.now.rules.weeks }
    requires low { 1 ≤ rung }
    requires high { rung ≤ length season.now.rules.prices }
    requires prefix { (prefix : List ℕ) × HasSummary season.now.rules done s prefix }
    ensures short { done < 52 }
    ensures goes { (prefix : List ℕ) → HasSummary season.now.rules done s prefix → Goes season.now.rules (suc done) (prefix ++ rung ∷ []) result }
{
    let rules = season.rules();
    match rules.broken(done, s, rung) {
        Some(rule) => Err(rule),
        None => match rules.next(done, s, rung) {
            Some(after) => Ok(after),
            None => unreachable!(),
        },
    }
}

// Walks the branches of a policy behind so many weeks that keep the rules and have this summary, after so many branches that
// ended: how many have ended then, or the first branch that breaks a rule.
fn walk(season: &Season, policy: &Policy, done: u32, s: Summary, ended: u32) -> Result<u32, Breach>
    requires early { done ≤ season.now.rules.weeks }
    requires policy { IsPolicyFor season.now (season.now.rules.weeks - done) (written policy.now) }
    requires prefix { (prefix : List ℕ) × HasSummary season.now.rules done s prefix }
    ensures { (prefix : List ℕ) (count : ℕ) → HasSummary season.now.rules done s prefix → min count most_branches ≡ ended → Finds season.now.rules count (behind prefix (branches (written policy.now))) result }
{
    match policy {
        Policy::End => Ok(ended.saturating_add(1)),
        Policy::Rung { rung, then } => match week_after(season, done, s, *rung) {
            Ok(after) => walk(season, then, done + 1, after, ended),
            Err(rule) => Err(Breach {
                branch: ended.saturating_add(1),
                rule,
            }),
        },
        Policy::Test { yes, no, .. } => match walk(season, yes, done, s, ended) {
            Ok(later) => walk(season, no, done, s, later),
            Err(breach) => Err(breach),
        },
    }
}

/// The first branch of a policy that breaks a rule, whether or not it can be reached.
pub fn first_broken_branch(season: &Season, policy: &Policy) -> Option<Breach>
    requires { IsPolicy season.now (written policy.now) }
    ensures { result ≡ first_breach season.now.rules 0 (branches (written policy.now)) }
{
    match walk(season, policy, 0, season.rules().start(), 0) {
        Ok(_) => None,
        Err(breach) => Some(breach),
    }
}
