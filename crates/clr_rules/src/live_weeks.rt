//! The live summaries of a season, by two sweeps over all summaries: forward, those that some weeks lead to; and back from
//! the last week, those of them from which a path ends well.

ghost use Rattle.std.specs.Prelude.{◌≡◌, ℕ, ◌+◌, ◌-◌, ◌*◌, ◌<◌, ◌≤◌, ◌↔◌, IsTrue, length, IfOk, MatchOption, suc, map, slice_get, slice_index_or, slice_set, Some, true, false, ◌||◌, List, []};
ghost use Rattle.clr_num.specs.Lists.{numbers};
ghost use Rattle.clr_rules.specs.declared.season_rules.Summary.{Summary};
ghost use Rattle.clr_rules.specs.Rules.{IsInRange, IsRulebook};
ghost use Rattle.clr_rules.specs.FirstPath.{SomePathObeys};
ghost use Rattle.clr_rules.specs.LiveSummaries.{IsAmong, IsGridOf, IsIn, all_summaries, at_week, is_reached, leads_on, leads_to, live_pairs, live_summaries, picked, reached_summaries, summaries};

use crate::season_rules::{Rules, Summary};
use crate::summary_grid::Grid;
use std::alloc::{AllocError, Global};
use std::marker::Model;

// Some summaries of one length, in order, and the place of each.
#[derive(Drop)]
struct Week {
    grid: Grid,
    list: Vec<Summary>,
    places: Vec<Option<u32>>,
}

impl Model for Week {
    ghost use Rattle.std.specs.Prelude.{List};
    ghost use Rattle.clr_rules.specs.declared.season_rules.Summary.{Summary};
    ghost use Rattle.clr_rules.specs.LiveSummaries.{IsIndexed};

    ghost Value = { List Summary };

    ghost view = { λ w. w.list.items };

    ghost invariant = { λ w. IsIndexed w.grid.rungs w.grid.counts w.grid.ages w.list.items w.places.items };
}

impl Week {
    // Those of a grid's summaries whose flag is set.
    fn gather(
        alloc: Global,
        grid: Grid,
        candidates: &[Summary],
        flags: &[bool],
    ) -> Result<Week, AllocError>
        requires all { candidates.now ≡ all_summaries grid.rungs grid.counts grid.ages }
        requires flags { length flags.now ≡ length candidates.now }
        ensures { IfOk result (λ week. week ≡ picked flags.now candidates.now) }
    {
        let mut list = Vec::new(alloc);
        let mut places = Vec::with_capacity(alloc, candidates.len())?;
        for (i, s) in candidates.iter().enumerate() {
            if flags[i] {
                places.push(Some(list.len() as u32))?;
                list.push(*s)?;
            } else {
                places.push(None)?;
            }
        }
        Ok(Week { grid, list, places })
    }

    // The same summaries again.
    fn copy(&self, alloc: Global) -> Result<Week, AllocError>
        ensures { IfOk result (λ week. week ≡ self.now) }
    {
        let list = Vec::from_slice(alloc, &self.list)?;
        let places = Vec::from_slice(alloc, &self.places)?;
        Ok(Week {
            grid: self.grid,
            list,
            places,
        })
    }

    fn len(&self) -> u32
        ensures { result ≡ length self.now }
    {
        self.list.len() as u32
    }

    fn is_empty(&self) -> bool
        ensures { IsTrue result ↔ self.now ≡ [] }
    {
        self.list.is_empty()
    }

    fn list(&self) -> &[Summary]
        ensures { result.now ≡ self.now }
    {
        &self.list
    }

    // The place of a summary, where it is one of them.
    fn find(&self, s: Summary) -> Option<u32>
        ensures found { (k : ℕ) → result ≡ Some k → slice_get self.now k ≡ Some s }
        ensures listed { (k : ℕ) → slice_get self.now k ≡ Some s → result ≡ Some k }
    {
        if self.grid.holds(s) {
            self.places[self.grid.place(s)]
        } else {
            None
        }
    }

    fn has(&self, s: Summary) -> bool
        ensures { IsTrue result ↔ IsIn self.now s }
    {
        self.find(s).is_some()
    }

    fn first(&self) -> Option<Summary>
        ensures { result ≡ slice_get self.now 0 }
    {
        self.list.first().copied()
    }

    // What comes after a summary that is one of them.
    fn after_summary(&self, s: Summary) -> Option<Summary>
        ensures { (k : ℕ) → slice_get self.now k ≡ Some s → result ≡ slice_get self.now (k + 1) }
    {
        match self.find(s) {
            Some(place) => self.list.get(place as usize + 1).copied(),
            None => None,
        }
    }
}

// Sets the flag of each summary to which a rung leads from this one.
fn mark_next(rules: &Rules, grid: Grid, done: u32, s: Summary, flags: &mut [bool])
    requires grid { IsGridOf rules.now grid.rungs grid.counts grid.ages }
    requires rules { IsRulebook rules.now }
    requires early { done < rules.now.weeks }
    requires reached { IsTrue (is_reached rules.now done s) }
    requires size { length flags.old ≡ length (summaries rules.now) }
    ensures { (i : ℕ) (t : Summary) → slice_get (summaries rules.now) i ≡ Some t → slice_index_or flags.new i false ≡ (slice_index_or flags.old i false || leads_to rules.now done s t) }
{
    for rung in 1..rules.rungs() + 1 {
        if let Some(t) = rules.next(done, s, rung) {
            flags[grid.place(t)] = true;
        }
    }
}

fn set_flag(flags: &mut [bool], place: usize)
    requires { place < length flags.old }
    ensures { flags.new ≡ slice_set flags.old place true }
{
    flags[place] = true;
}

// The summaries before the first week: that of no weeks.
fn first_week(
    alloc: Global,
    rules: &Rules,
    grid: Grid,
    candidates: &[Summary],
) -> Result<Week, AllocError>
    requires grid { IsGridOf rules.now grid.rungs grid.counts grid.ages }
    requires rules { IsRulebook rules.now }
    requires all { candidates.now ≡ summaries rules.now }
    ensures { IfOk result (λ week. week ≡ reached_summaries rules.now 0) }
{
    let mut flags = vec![in alloc; false; candidates.len()]?;
    set_flag(&mut flags, grid.place(rules.start()));
    Week::gather(alloc, grid, candidates, &flags)
}

// The summaries after one week more.
fn next_week(
    alloc: Global,
    rules: &Rules,
    grid: Grid,
    candidates: &[Summary],
    done: u32,
    week: &Week,
) -> Result<Week, AllocError>
    requires grid { IsGridOf rules.now grid.rungs grid.counts grid.ages }
    requires rules { IsRulebook rules.now }
    requires all { candidates.now ≡ summaries rules.now }
    requires early { done < rules.now.weeks }
    requires week { week.now ≡ reached_summaries rules.now done }
    ensures { IfOk result (λ next. next ≡ reached_summaries rules.now (suc done)) }
{
    let mut flags = vec![in alloc; false; candidates.len()]?;
    for s in week.list() {
        mark_next(rules, grid, done, *s, &mut flags);
    }
    Week::gather(alloc, grid, candidates, &flags)
}

// Forward: the summaries of each length to which some weeks lead that keep the rules.
fn reached_weeks(
    alloc: Global,
    rules: &Rules,
    grid: Grid,
    candidates: &[Summary],
) -> Result<Vec<Week>, AllocError>
    requires grid { IsGridOf rules.now grid.rungs grid.counts grid.ages }
    requires rules { IsRulebook rules.now }
    requires all { candidates.now ≡ summaries rules.now }
    ensures { IfOk result (λ weeks. weeks.items ≡ map (reached_summaries rules.now) (numbers 0 (suc rules.now.weeks))) }
{
    let mut weeks = Vec::new(alloc);
    weeks.push(first_week(alloc, rules, grid, candidates)?)?;
    for done in 0..rules.weeks() {
        let next = next_week(alloc, rules, grid, candidates, done, &weeks[done as usize])?;
        weeks.push(next)?;
    }
    Ok(weeks)
}

// Whether a rung leads from this summary to a live one.
fn leads_to_live(rules: &Rules, done: u32, s: Summary, next: &Week) -> bool
    requires rules { IsRulebook rules.now }
    requires early { done < rules.now.weeks }
    requires range { IsInRange rules.now s }
    requires next { next.now ≡ live_summaries rules.now (suc done) }
    ensures { result ≡ leads_on rules.now done s }
{
    for rung in 1..rules.rungs() + 1 {
        if let Some(t) = rules.next(done, s, rung) {
            if next.has(t) {
                return true;
            }
        }
    }
    false
}

// Those summaries of one length that lead to a live one.
fn live_week(
    alloc: Global,
    rules: &Rules,
    grid: Grid,
    candidates: &[Summary],
    done: u32,
    reached: &Week,
    next: &Week,
) -> Result<Week, AllocError>
    requires grid { IsGridOf rules.now grid.rungs grid.counts grid.ages }
    requires rules { IsRulebook rules.now }
    requires all { candidates.now ≡ summaries rules.now }
    requires early { done < rules.now.weeks }
    requires reached { reached.now ≡ reached_summaries rules.now done }
    requires next { next.now ≡ live_summaries rules.now (suc done) }
    ensures { IfOk result (λ week. week ≡ live_summaries rules.now done) }
{
    let mut flags = Vec::with_capacity(alloc, candidates.len())?;
    for s in candidates {
        let is_reached = reached.has(*s);
        let leads = leads_to_live(rules, done, *s, next);
        flags.push(is_reached && leads)?;
    }
    Week::gather(alloc, grid, candidates, &flags)
}

// Back from the last week: leaves of each week's summaries the live ones.
fn keep_live(
    alloc: Global,
    rules: &Rules,
    grid: Grid,
    candidates: &[Summary],
    weeks: &mut Vec<Week>,
) -> Result<(), AllocError>
    requires grid { IsGridOf rules.now grid.rungs grid.counts grid.ages }
    requires rules { IsRulebook rules.now }
    requires all { candidates.now ≡ summaries rules.now }
    requires weeks { weeks.old.items ≡ map (reached_summaries rules.now) (numbers 0 (suc rules.now.weeks)) }
    ensures { IfOk result (λ _. weeks.new.items ≡ map (live_summaries rules.now) (numbers 0 (suc rules.now.weeks))) }
{
    for done in (0..rules.weeks()).rev() {
        let at = done as usize;
        let week = live_week(
            alloc,
            rules,
            grid,
            candidates,
            done,
            &weeks[at],
            &weeks[at + 1],
        )?;
        weeks[at] = week;
    }
    Ok(())
}

/// The live summaries of a season, those of the prefixes that some obeying path extends. They are seen as the list of their
/// pairs of length and summary: by the number of weeks done, from 0, and then in the order of summaries, by `last`, then
/// `count`, then `age`.
#[derive(Drop)]
pub struct Live {
    weeks: Vec<Week>,
}

impl Model for Live {
    ghost use Rattle.std.specs.Prelude.{List, ℕ};
    ghost use Rattle.clr_rules.specs.declared.season_rules.Summary.{Summary};
    ghost use Rattle.clr_rules.specs.LiveSummaries.{pairs_from};

    ghost Value = { List (ℕ × Summary) };

    ghost view = { λ l. pairs_from 0 l.weeks.items };
}

impl Live {
    /// The live summaries under these rules. It sweeps over the summaries of all weeks, forward to what some prefix reaches and
    /// back to what can still be ended.
    ///
    /// # Errors
    /// Where memory is wanting.
    pub fn build(alloc: Global, rules: &Rules) -> Result<Live, AllocError>
        ensures pairs { IfOk result (λ live. live ≡ live_pairs rules.now) }
        ensures any { IfOk result (λ live. (0 < length live) ↔ SomePathObeys rules.now) }
    {
        let grid = Grid::of(rules);
        let candidates = grid.summaries(alloc)?;
        let mut weeks = reached_weeks(alloc, rules, grid, &candidates)?;
        keep_live(alloc, rules, grid, &candidates, &mut weeks)?;
        Ok(Live { weeks })
    }

    /// The same live summaries again.
    ///
    /// # Errors
    /// Where memory is wanting.
    pub fn copy(&self, alloc: Global) -> Result<Live, AllocError>
        ensures { IfOk result (λ live. live ≡ self.now) }
    {
        let mut weeks = Vec::with_capacity(alloc, self.weeks.len())?;
        for week in &self.weeks {
            weeks.push(week.copy(alloc)?)?;
        }
        Ok(Live { weeks })
    }

    // The summaries of a length, where there is a week of it.
    fn week(&self, done: u32) -> Option<&Week>
        ensures { MatchOption result (at_week done self.now ≡ []) (λ week. at_week done self.now ≡ week.now) }
    {
        self.weeks.get(done as usize)
    }

    /// Whether some path obeys.
    pub fn any(&self) -> bool
        ensures { IsTrue result ↔ 0 < length self.now }
    {
        for week in &self.weeks {
            if !week.is_empty() {
                return true;
            }
        }
        false
    }

    /// Whether a summary is that of a live prefix of `done` weeks. Past the season's last week none is.
    pub fn has(&self, done: u32, s: Summary) -> bool
        ensures { IsTrue result ↔ IsAmong self.now done s }
    {
        match self.week(done) {
            Some(week) => week.has(s),
            None => false,
        }
    }

    /// The first live summary after `done` weeks; None where there is none.
    pub fn first(&self, done: u32) -> Option<Summary>
        ensures { result ≡ slice_get (at_week done self.now) 0 }
    {
        match self.week(done) {
            Some(week) => week.first(),
            None => None,
        }
    }

    /// The live summary that comes after this live one, among those after `done` weeks; None where it is the last.
    pub fn after(&self, done: u32, s: Summary) -> Option<Summary>
        requires { IsAmong self.now done s }
        ensures { (k : ℕ) → slice_get (at_week done self.now) k ≡ Some s →
            result ≡ slice_get (at_week done self.now) (k + 1) }
    {
        match self.week(done) {
            Some(week) => week.after_summary(s),
            None => None,
        }
    }

    /// The place of a summary, from 0, among those that are live after `done` weeks; None where it is not live.
    pub fn find(&self, done: u32, s: Summary) -> Option<u32>
        ensures found { (k : ℕ) → result ≡ Some k → slice_get (at_week done self.now) k ≡ Some s }
        ensures listed { (k : ℕ) → slice_get (at_week done self.now) k ≡ Some s → result ≡ Some k }
    {
        match self.week(done) {
            Some(week) => week.find(s),
            None => None,
        }
    }

    /// The place of a live summary, from 0, among those that are live after `done` weeks.
    pub fn place(&self, done: u32, s: Summary) -> u32
        requires { IsAmong self.now done s }
        ensures { slice_get (at_week done self.now) result ≡ Some s }
    {
        self.find(done, s).unwrap()
    }

    /// The number of summaries that are live after `done` weeks.
    pub fn count(&self, done: u32) -> u32
        ensures { result ≡ length (at_week done self.now) }
    {
        match self.week(done) {
            Some(week) => week.len(),
            None => 0,
        }
    }
}
