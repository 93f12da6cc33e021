//! The rules of a markdown season, the summaries of the price paths that keep them, and the first path that does.
#![tactic(auto)]

ghost use Rattle.clr_rules.specs.FirstPath.{OneFirstObeying, SomeOrNoneObeys};
ghost use Rattle.clr_rules.specs.LiveSummaries.{LivePairsAreLive};
ghost use Rattle.clr_rules.specs.Rules.{NextBySummary, SameSummarySameRest, StayingObeys};

mod calendar_file;
mod first_obeying;
mod limits;
mod live_weeks;
mod season_rules;
mod summary_grid;

pub use calendar_file::read_calendar;
pub use first_obeying::first_path;
pub use limits::{Limits, read_limits};
pub use live_weeks::Live;
pub use season_rules::{Calendar, Rule, Rules, Summary, Window, free_calendar};

/// Without a calendar the path that stays on the first rung in every week obeys every rule.
pub fn staying_obeys()
    ensures { StayingObeys }
{}

/// Two prefixes of one length that keep the rules and have one summary are made obeying paths by the same lists.
pub fn same_summary_same_rest()
    ensures { SameSummarySameRest }
{}

/// After a prefix that keeps the rules, its summary decides whether a rung keeps them, what the next summary is, and
/// whether the longer prefix is live.
pub fn next_by_summary()
    ensures { NextBySummary }
{}

/// The pairs that a `Live` is built of are those of the summaries of live prefixes, and there are some exactly where some
/// path obeys.
pub fn live_pairs_are_live()
    ensures { LivePairsAreLive }
{}

/// Some path obeys exactly where there is an obeying list of rungs, and none does exactly where no list of rungs obeys.
pub fn some_or_none_obeys()
    ensures { SomeOrNoneObeys }
{}

/// There is but one first obeying path.
pub fn one_first_obeying()
    ensures { OneFirstObeying }
{}
