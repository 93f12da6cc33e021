// The live summaries after so many weeks, and where rungs lead from them.
ghost use Rattle.std.specs.Prelude.{◌≡◌, suc, ◌≤◌, ◌<◌, ◌+◌, IsTrue, true, false, length, slice_get, Some, IfOk, MatchOption};
ghost use Rattle.clr_rules.specs.LiveSummaries.{at_week, is_live_summary, leads_at, live_pairs};
ghost use Rattle.clr_rules.specs.Rules.{IsRulebook, next_summary};

use clr_rules::{Live, Rules, Summary};
use std::alloc::{AllocError, Global};

/// The live summaries after so many weeks, in their order.
///
/// # Errors
/// Where memory is wanting.
pub fn week_list(alloc: Global, live: &Live, done: u32) -> Result<Vec<Summary>, AllocError>
    ensures { IfOk result (λ list. list.items ≡ at_week done live.now) }
{
    let mut list = Vec::with_capacity(alloc, live.count(done) as usize)?;
    let mut next = live.first(done);
    while let Some(s) = next {
        list.push(s)?;
        next = live.after(done, s);
    }
    Ok(list)
}

/// Where a rung leads from a live summary: the place, among the live ones after the next week, of the summary after it, and
/// None where it isn't live.
pub fn lead(rules: &Rules, live: &Live, done: u32, s: Summary, rung: u32) -> Option<u32>
    requires rules { IsRulebook rules.now }
    requires live { live.now ≡ live_pairs rules.now }
    requires early { done < rules.now.weeks }
    requires here { IsTrue (is_live_summary rules.now done s) }
    requires low { 1 ≤ rung }
    requires high { rung ≤ length rules.now.prices }
    ensures { MatchOption result (leads_at rules.now done s rung ≡ false) (λ place. (leads_at rules.now done s rung ≡ true) × (slice_get (at_week (suc done) live.now) place ≡ Some (next_summary rules.now s rung))) }
{
    match rules.next(done, s, rung) {
        Some(next) => live.find(done + 1, next),
        None => None,
    }
}
