// A price path.
ghost use Rattle.std.specs.Prelude.{◌≡◌, ◌≤◌, ◌-◌, IfOk, length, slice_set};
ghost use Rattle.clr_rules.specs.Rules.{IsPath, rung_at};

use clr_season::Season;
use std::alloc::{AllocError, Global};
use std::marker::Model;

/// The rungs of a season's weeks, from week 1. It is seen as their list.
#[derive(Drop)]
pub struct Path {
    rungs: Vec<u32>,
}

impl Model for Path {
    ghost use Rattle.std.specs.Prelude.{ℕ, List, length, ◌≤◌};

    ghost Value = { List ℕ };

    ghost view = { λ p. p.rungs.items };

    ghost invariant = { λ p. length p.rungs.items ≤ 52 };
}

impl Path {
    /// The path with these rungs, one of the season's ladder for each of its weeks, from week 1.
    ///
    /// # Errors
    /// Where memory is wanting.
    pub fn new(alloc: Global, season: &Season, rungs: &[u32]) -> Result<Path, AllocError>
        requires { IsPath season.now.rules rungs.now }
        ensures { IfOk result (λ path. path ≡ rungs.now) }
    {
        let mut list = Vec::with_capacity(alloc, season.weeks() as usize)?;
        list.extend_from_slice(rungs)?;
        Ok(Path { rungs: list })
    }

    /// The number of weeks.
    pub fn len(&self) -> u32
        ensures { result ≡ length self.now }
    {
        self.rungs.len() as u32
    }

    /// The rungs of the weeks, from week 1.
    pub fn rungs(&self) -> &[u32]
        ensures { result.now ≡ self.now }
    {
        &self.rungs
    }

    /// The rung of a week, both counted from 1.
    pub fn rung(&self, week: u32) -> u32
        requires low { 1 ≤ week }
        requires high { week ≤ length self.now }
        ensures { result ≡ rung_at self.now week }
    {
        self.rungs[week as usize - 1]
    }

    /// Puts a rung at a week, and leaves those of all other weeks.
    pub fn set(&mut self, week: u32, rung: u32)
        requires low { 1 ≤ week }
        requires high { week ≤ length self.old }
        ensures { self.new ≡ slice_set self.old (week - 1) rung }
    {
        self.rungs[week as usize - 1] = rung;
    }
}
