//! All summaries whose numbers lie in range, and the place of each among them.

ghost use Rattle.std.specs.Prelude.{◌≡◌, ℕ, ◌+◌, ◌-◌, ◌*◌, ◌<◌, ◌≤◌, ◌↔◌, IsTrue, length, IfOk, suc};

use crate::season_rules::{Rules, Summary};
use std::alloc::{AllocError, Global};

/// How many values each number of a summary takes: `last` from 1, `count` from 0, `age` from 1.
#[derive(Clone, Copy)]
pub struct Grid {
    rungs: u32,
    counts: u32,
    ages: u32,
    ghost few_rungs: { rungs ≤ 12 },
    ghost few_counts: { counts ≤ 12 },
    ghost few_ages: { ages ≤ 12 },
}

impl Grid {
    ghost use Rattle.clr_rules.specs.LiveSummaries.{all_summaries, place_in, IsHeld};
    ghost use Rattle.clr_rules.specs.Rules.{most_markdowns, IsRulebook};

    /// The grid of a season's summaries.
    pub fn of(rules: &Rules) -> Grid
        ensures rungs { result.rungs ≡ length rules.now.prices }
        ensures counts { result.counts ≡ suc (most_markdowns rules.now) }
        ensures ages { result.ages ≡ rules.now.spacing }
        ensures facts { IsRulebook rules.now }
    {
        let rungs = rules.rungs();
        let most = rules.markdowns().min(rungs - 1).min(rules.weeks());
        Grid {
            rungs,
            counts: most + 1,
            ages: rules.spacing(),
        }
    }

    /// Whether a summary is one of the grid's.
    pub fn holds(self, s: Summary) -> bool
        ensures { IsTrue result ↔ IsHeld self.rungs self.counts self.ages s }
    {
        1 <= s.last
            && s.last <= self.rungs
            && s.count < self.counts
            && 1 <= s.age
            && s.age <= self.ages
    }

    /// The number of summaries.
    pub fn len(self) -> usize
        ensures { result ≡ self.rungs * self.counts * self.ages }
    {
        self.rungs as usize * self.counts as usize * self.ages as usize
    }

    /// The place of a summary among the grid's, from 0.
    pub fn place(self, s: Summary) -> usize
        requires { IsHeld self.rungs self.counts self.ages s }
        ensures place { result ≡ place_in self.counts self.ages s }
        ensures range { result < self.rungs * self.counts * self.ages }
    {
        let row = (s.last - 1) * self.counts + s.count;
        (row * self.ages + (s.age - 1)) as usize
    }

    /// All summaries of the grid, by `last`, then `count`, then `age`.
    pub fn summaries(self, alloc: Global) -> Result<Vec<Summary>, AllocError>
        ensures { IfOk result (λ list. list.items ≡ all_summaries self.rungs self.counts self.ages) }
    {
        let mut list = Vec::with_capacity(alloc, self.len())?;
        for last in 0..self.rungs {
            for count in 0..self.counts {
                for age in 0..self.ages {
                    list.push(Summary {
                        last: last + 1,
                        count,
                        age: age + 1,
                    })?;
                }
            }
        }
        Ok(list)
    }
}
