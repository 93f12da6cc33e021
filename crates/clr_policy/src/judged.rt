// What a policy earns.
ghost use Rattle.std.specs.Prelude.{◌≡◌, ◌≤◌, ◌*◌, nat_le, min, length, pos, ◌*ℤ◌, IfOk, OnOk};
ghost use Rattle.clr_average.specs.Average.{IsWithin};
ghost use Rattle.clr_model.specs.Expected.{den, season_earned};
ghost use Rattle.clr_model.specs.Fits.{most_joint_base};
ghost use Rattle.clr_model.specs.JointWeek.{joint_base};
ghost use Rattle.clr_model.specs.Revenue.{cent};
ghost use Rattle.clr_season.specs.Season.{IsSeason};
ghost use Rattle.clr_policy.specs.Written.{IsPolicy, most_objects, object_count, written};
ghost use Rattle.clr_policy.specs.Judged.{Answers, PoliciesValued, judgement, most_policy_size, policy_size, stock_demands};
ghost use Rattle.clr_policy.specs.Unrolled.{IsValued, policy_tree, policy_value};

use crate::branches::first_broken_branch;
use crate::policy::{MOST_OBJECTS, Policy, objects};
use crate::values::values_of;
use clr_num::Direction;
use clr_rules::Rule;
use clr_season::Season;
use std::alloc::{AllocError, Global};
use thiserror::Error;

/// Why a policy has no value. See docs/formats.md, "Policy files".
#[derive(Clone, Copy, Debug, PartialEq, Eq, Error)]
pub enum JudgeError {
    /// A branch, numbered from 1 in the order in which they end, `yes` before `no`, and held at 4,294,967,295, breaks a rule: the
    /// first rule that its first week breaks which breaks one. It is the first such branch, whether or not it can be reached.
    #[error("branch {branch} breaks the rule {rule:?}")]
    Rule { branch: u32, rule: Rule },
    /// The base, to which the weights of a store in a week on a rung sum, is greater than 10^18 when raised to the number of
    /// stores.
    #[error("the base to the number of stores is too great")]
    Base,
    /// The size, held at 10^18, is greater than 100,000,000. [`judge`] says what it is.
    #[error("the size {found} is too great")]
    Size { found: u64 },
    /// Memory was wanting.
    #[error("out of memory")]
    Memory,
}

/// What the base to the number of stores may be at most.
const MOST_BASE: u64 = 1_000_000_000_000_000_000;

/// The greatest size of a policy that is judged.
const MOST_SIZE: u64 = 100_000_000;

/// Whether the base to the number of stores is at most 10^18.
fn has_small_base(season: &Season) -> bool
    ensures { result ≡ nat_le (joint_base season.now) most_joint_base }
{
    match u64::from(season.base()).checked_pow(season.stores()) {
        Some(all) => all <= MOST_BASE,
        None => false,
    }
}

/// A number times another, held at 10^18.
fn held_product(a: u64, b: u64) -> u64
    requires { (a ≤ most_objects) }
    ensures value { result ≡ min (a * b) most_objects }
    ensures range { result ≤ most_objects }
{
    let product = u128::from(a) * u128::from(b);
    product.min(u128::from(MOST_OBJECTS)) as u64
}

/// The number of lists of stocks, each times the demands that stocks tell apart, held at 10^18.
fn size_of_stocks(season: &Season) -> u64
    ensures value { result ≡ min (stock_demands season.now.top season.now.stores) most_objects }
    ensures range { result ≤ most_objects }
{
    let mut size = 1;
    for index in 0..season.stores() {
        let stock = u64::from(season.stock(index + 1));
        let demands = stock.min(u64::from(season.top()));
        size = held_product(size, (stock + 1) * (demands + 1));
    }
    size
}

/// The size of a policy, held at 10^18.
fn size_of(season: &Season, policy: &Policy) -> u64
    ensures { result ≡ policy_size season.now (written policy.now) }
{
    held_product(objects(policy), size_of_stocks(season))
}

/// A policy of a season that breaks no rule on any branch makes a tree that abides; what it earns in expectation lies between
/// its value rounded down and its value rounded up, and these lie at most a unit apart for each week. See docs/model.md,
/// "Written policies" and "Outcomes, policies and expected revenue".
pub fn policies_valued()
    ensures { PoliciesValued }
{}

/// The value of a policy at full stocks, each week rounded once in the direction `R`.
fn value_of<R: Direction>(
    alloc: Global,
    season: &Season,
    policy: &Policy,
) -> Result<i128, AllocError>
    requires policy { IsPolicy season.now (written policy.now) }
    requires base { joint_base season.now ≤ most_joint_base }
    requires size { policy_size season.now (written policy.now) ≤ most_policy_size }
    ensures value { IfOk result (λ value. value ≡ policy_value R.quotient season.now (written policy.now)) }
    ensures money { IfOk result (λ value. IsWithin 100000000000000000000 value) }
    ensures facts { IsSeason season.now }
{
    prove!(season.weeks() <= 52);
    let values = values_of::<R>(alloc, season, policy, 0, 1)?;
    Ok(values[values.len() - 1])
}

/// The value of a policy at full stocks, in units of 10^-8 of the currency, of which a cent has 10^6, each week rounded once
/// for all stores in the direction `R`. It lies between -10^20 and 10^20. The policy's branches have a rung for each week, and
/// its tests ask for the season's stores, as those of [`crate::read_policy`] do.
///
/// At the end of the season each unit left is worth the salvage of its store. Before a week the value of a list of stocks is
/// the average, by the weights out of the base, over what the stores may be asked for in the week: of what they earn in it,
/// costs of relabelling taken off, and of the value of what is left. See docs/model.md, "Written policies".
///
/// The value rounded down and the value rounded up enclose what the policy earns in expectation, costs of relabelling taken
/// off, and lie at most a unit apart for each week; the policy keeps every rule, whatever happens.
///
/// # Errors
///
/// The first of: `Rule` where a branch breaks a rule, `Base` where the base to the number of stores is greater than 10^18,
/// and `Size` where the size is greater than 100,000,000. The size is the number of rungs and tests times the product over
/// the stores of the stocks that a store may have and the demands that these tell apart, held at 10^18. `Memory` may come in
/// place of any answer behind these.
pub fn judge<R: Direction>(
    alloc: Global,
    season: &Season,
    policy: &Policy,
) -> Result<i128, JudgeError>
    requires { IsPolicy season.now (written policy.now) }
    ensures gives { Answers result (judgement R.quotient season.now (written policy.now)) }
    ensures valued { OnOk result (IsValued season.now (written policy.now)) }
    ensures leans { IfOk result (λ value. R.leans (value *ℤ den season.now season.now.rules.weeks) (pos cent *ℤ season_earned season.now (policy_tree season.now (written policy.now)))) }
    ensures money { IfOk result (λ value. IsWithin 100000000000000000000 value) }
{
    if let Some(breach) = first_broken_branch(season, policy) {
        return Err(JudgeError::Rule {
            branch: breach.branch,
            rule: breach.rule,
        });
    }
    if !has_small_base(season) {
        return Err(JudgeError::Base);
    }
    let found = size_of(season, policy);
    if found > MOST_SIZE {
        return Err(JudgeError::Size { found });
    }
    match value_of::<R>(alloc, season, policy) {
        Ok(value) => Ok(value),
        Err(_) => Err(JudgeError::Memory),
    }
}
