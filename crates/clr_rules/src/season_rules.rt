//! The rules of a season: its numbers, its calendar and its ladder of prices.

ghost use Rattle.std.specs.Prelude.{◌≡◌, ℕ, ◌-◌, ◌*◌, ◌<◌, ◌≤◌, nat_le, List, [], ◌∷◌, ◌++◌, length, IfOk};
ghost use Rattle.clr_rules.specs.Rules.{HasSummary, IsInRange, IsRulebook, breaks_first, first_broken, free_weeks, longer_summary, next_if_kept, next_summary, price, rulebook_of, step_first_cut, step_frozen, step_number, step_rise, step_spacing, step_window, summary, turns, window_of};

use crate::limits::Limits;
use std::alloc::{AllocError, Global};
use std::marker::Model;

/// What the calendar says of one week.
#[derive(Clone, Copy)]
pub struct Window {
    /// The least rung that may stand, counted from 1.
    pub from: u32,
    /// The greatest rung that may stand.
    pub to: u32,
    /// Whether the week may be no markdown week.
    pub frozen: bool,
}

/// The windows of a season's weeks, from week 1. It is seen as their list.
#[derive(Drop)]
pub struct Calendar {
    windows: Vec<Window>,
}

impl Model for Calendar {
    ghost use Rattle.std.specs.Prelude.{List, length, ◌≤◌};
    ghost use Rattle.clr_rules.specs.declared.season_rules.Window.{Window};

    ghost Value = { List Window };

    ghost view = { λ c. c.windows.items };

    ghost invariant = { λ c. length c.windows.items ≤ 52 };
}

/// The calendar of a season without one, for at most 52 weeks: each rung in each week, and no week frozen.
///
/// # Errors
/// Where memory is wanting.
pub fn free_calendar(alloc: Global, weeks: u32) -> Result<Calendar, AllocError>
    requires { weeks ≤ 52 }
    ensures { IfOk result (λ c. c ≡ free_weeks weeks) }
{
    let open = Window {
        from: 1,
        to: 12,
        frozen: false,
    };
    let windows = vec![in alloc; open; weeks as usize]?;
    Ok(Calendar { windows })
}

impl Calendar {
    // The calendar of these windows, from week 1.
    pub(crate) fn of_windows(windows: Vec<Window>) -> Calendar
        requires { length windows.items ≤ 52 }
        ensures { result ≡ windows.items }
    {
        Calendar { windows }
    }

    /// The number of weeks.
    pub fn len(&self) -> u32
        ensures { result ≡ length self.now }
    {
        self.windows.len() as u32
    }

    /// The least rung of a week, counted from 1.
    pub fn from(&self, week: u32) -> u32
        requires low { 1 ≤ week }
        requires high { week ≤ length self.now }
        ensures { result ≡ (window_of self.now week).from }
    {
        self.windows[week as usize - 1].from
    }

    /// The greatest rung of a week. It may lie past the last rung of the ladder.
    pub fn to(&self, week: u32) -> u32
        requires low { 1 ≤ week }
        requires high { week ≤ length self.now }
        ensures { result ≡ (window_of self.now week).to }
    {
        self.windows[week as usize - 1].to
    }

    /// Whether a week may be no markdown week.
    pub fn frozen(&self, week: u32) -> bool
        requires low { 1 ≤ week }
        requires high { week ≤ length self.now }
        ensures { result ≡ (window_of self.now week).frozen }
    {
        self.windows[week as usize - 1].frozen
    }
}

/// What the rules of a later week need to know of the weeks so far.
#[derive(Clone, Copy, Debug, PartialEq, Eq)]
pub struct Summary {
    /// The last rung, counted from 1, and 1 before the first week.
    pub last: u32,
    /// The number of markdown weeks.
    pub count: u32,
    /// The number of weeks from the last markdown week to the next week, at most the spacing; the spacing where there is
    /// no markdown week.
    pub age: u32,
}

/// A rule that a week may break. They are judged in this order.
#[derive(Clone, Copy, Debug, PartialEq, Eq)]
pub enum Rule {
    /// No rung is less than the rung before it.
    Rise,
    /// The rung lies in the week's window.
    Window,
    /// A frozen week is no markdown week.
    Frozen,
    /// There are at most so many markdown weeks.
    Number,
    /// Any two markdown weeks are at least so many weeks apart.
    Spacing,
    /// The first markdown leaves at least so much of the first price.
    FirstCut,
}

/// The rules of a season: its numbers, its calendar and its prices. They are seen as a `Rulebook`.
#[derive(Drop)]
pub struct Rules {
    limits: Limits,
    calendar: Calendar,
    prices: Vec<u64>,
}

impl Model for Rules {
    ghost use Rattle.clr_rules.specs.Rules.{Rulebook, IsRulebook, rulebook_of};

    ghost Value = { Rulebook };

    ghost view = { λ r. rulebook_of r.limits r.calendar r.prices.items };

    ghost invariant = { λ r. IsRulebook (rulebook_of r.limits r.calendar r.prices.items) };
}

impl Rules {
    /// The rules of these limits, this calendar and these prices in cents, the price of rung 1 first. The calendar has a window
    /// for each week, and the prices fall. The rules are those of docs/model.md, "The rules".
    ///
    /// # Errors
    /// Where memory is wanting.
    pub fn new(
        alloc: Global,
        limits: Limits,
        calendar: Calendar,
        prices: &[u64],
    ) -> Result<Rules, AllocError>
        requires { IsRulebook (rulebook_of limits calendar prices.now) }
        ensures { IfOk result (λ rules. rules ≡ rulebook_of limits calendar prices.now) }
    {
        let mut ladder = Vec::with_capacity(alloc, prices.len())?;
        ladder.extend_from_slice(prices)?;
        Ok(Rules {
            limits,
            calendar,
            prices: ladder,
        })
    }

    /// The number of weeks.
    pub fn weeks(&self) -> u32
        ensures value { result ≡ self.now.weeks }
        ensures facts { IsRulebook self.now }
    {
        self.limits.weeks
    }

    /// The number of rungs.
    pub fn rungs(&self) -> u32
        ensures value { result ≡ length self.now.prices }
        ensures facts { IsRulebook self.now }
    {
        self.prices.len() as u32
    }

    /// The price of a rung in cents, the rung counted from 1.
    pub fn price(&self, rung: u32) -> u64
        requires low { 1 ≤ rung }
        requires high { rung ≤ length self.now.prices }
        ensures value { result ≡ price self.now rung }
        ensures range { (1 ≤ result) × (result ≤ 10000000) }
    {
        self.prices[rung as usize - 1]
    }

    /// The greatest number of markdown weeks.
    pub fn markdowns(&self) -> u32
        ensures value { result ≡ self.now.markdowns }
        ensures facts { IsRulebook self.now }
    {
        self.limits.markdowns
    }

    /// The least distance of two markdown weeks in weeks.
    pub fn spacing(&self) -> u32
        ensures value { result ≡ self.now.spacing }
        ensures facts { IsRulebook self.now }
    {
        self.limits.spacing
    }

    /// The summary before the first week.
    pub fn start(&self) -> Summary
        ensures { result ≡ summary self.now [] }
    {
        Summary {
            last: 1,
            count: 0,
            age: self.limits.spacing,
        }
    }

    /// The first rule, in the order of `Rule`, that week `done + 1` breaks on this rung, after `done` weeks that keep the
    /// rules and have this summary; None where it breaks none.
    pub fn broken(&self, done: u32, s: Summary, rung: u32) -> Option<Rule>
        requires early { done < self.now.weeks }
        requires low { 1 ≤ rung }
        requires high { rung ≤ length self.now.prices }
        requires range { IsInRange self.now s }
        ensures by_summary { result ≡ breaks_first self.now done s rung }
        ensures by_prefix { (prefix : List ℕ) → HasSummary self.now done s prefix →
            result ≡ first_broken self.now (prefix ++ rung ∷ []) }
    {
        self.first_breach(done, s, rung)
    }

    /// The summary after week `done + 1` on this rung, where that week breaks no rule; None where it breaks one.
    pub fn next(&self, done: u32, s: Summary, rung: u32) -> Option<Summary>
        requires early { done < self.now.weeks }
        requires low { 1 ≤ rung }
        requires high { rung ≤ length self.now.prices }
        requires range { IsInRange self.now s }
        ensures by_summary { result ≡ next_if_kept self.now done s rung }
        ensures by_prefix { (prefix : List ℕ) → HasSummary self.now done s prefix →
            result ≡ longer_summary self.now (prefix ++ rung ∷ []) }
    {
        match self.broken(done, s, rung) {
            Some(_) => None,
            None => Some(self.after_week(s, rung)),
        }
    }

    // The first rule broken, by the summary alone.
    fn first_breach(&self, done: u32, s: Summary, rung: u32) -> Option<Rule>
        requires early { done < self.now.weeks }
        requires low { 1 ≤ rung }
        requires high { rung ≤ length self.now.prices }
        requires range { IsInRange self.now s }
        ensures { result ≡ breaks_first self.now done s rung }
    {
        if !keeps_rise(s, rung) {
            Some(Rule::Rise)
        } else if !self.keeps_window(done, rung) {
            Some(Rule::Window)
        } else if !self.keeps_frozen(done, s, rung) {
            Some(Rule::Frozen)
        } else if !self.keeps_number(s, rung) {
            Some(Rule::Number)
        } else if !self.keeps_spacing(s, rung) {
            Some(Rule::Spacing)
        } else if !self.keeps_first_cut(s, rung) {
            Some(Rule::FirstCut)
        } else {
            None
        }
    }

    fn keeps_window(&self, done: u32, rung: u32) -> bool
        requires { done < self.now.weeks }
        ensures { result ≡ step_window self.now done rung }
    {
        let calendar = &self.calendar;
        let week = done + 1;
        calendar.from(week) <= rung && rung <= calendar.to(week)
    }

    fn keeps_frozen(&self, done: u32, s: Summary, rung: u32) -> bool
        requires { done < self.now.weeks }
        ensures { result ≡ step_frozen self.now done s rung }
    {
        let calendar = &self.calendar;
        !(calendar.frozen(done + 1) && is_markdown(s, rung))
    }

    fn keeps_number(&self, s: Summary, rung: u32) -> bool
        requires { s.count ≤ self.now.markdowns }
        ensures { result ≡ step_number self.now s rung }
    {
        !is_markdown(s, rung) || s.count < self.limits.markdowns
    }

    fn keeps_spacing(&self, s: Summary, rung: u32) -> bool
        ensures { result ≡ step_spacing self.now s rung }
    {
        !is_markdown(s, rung) || self.limits.spacing <= s.age
    }

    fn keeps_first_cut(&self, s: Summary, rung: u32) -> bool
        requires low { 1 ≤ rung }
        requires high { rung ≤ length self.now.prices }
        ensures { result ≡ step_first_cut self.now s rung }
    {
        !(is_markdown(s, rung) && s.count == 0) || self.cuts_little(rung)
    }

    // Whether a rung leaves as much of the first price as the first markdown must.
    fn cuts_little(&self, rung: u32) -> bool
        requires low { 1 ≤ rung }
        requires high { rung ≤ length self.now.prices }
        ensures { result ≡ nat_le ((100 - self.now.first_cut) * price self.now 1) (100 * price self.now rung) }
    {
        let least = u64::from(100 - self.limits.first_cut) * self.prices[0];
        least <= 100 * self.prices[rung as usize - 1]
    }

    // The summary after a week on this rung.
    fn after_week(&self, s: Summary, rung: u32) -> Summary
        requires { IsInRange self.now s }
        ensures { result ≡ next_summary self.now s rung }
    {
        let spacing = self.limits.spacing;
        let turns = is_markdown(s, rung);
        let age = if turns { 0 } else { s.age };
        Summary {
            last: rung,
            count: s.count + u32::from(turns),
            age: spacing.min(age + 1),
        }
    }
}

// Whether a week on this rung is a markdown week.
fn is_markdown(s: Summary, rung: u32) -> bool
    ensures { result ≡ turns s rung }
{
    rung != s.last
}

fn keeps_rise(s: Summary, rung: u32) -> bool
    ensures { result ≡ step_rise s rung }
{
    s.last <= rung
}
