//! The first obeying path in the order of lists.

ghost use Rattle.std.specs.Prelude.{◌≡◌, ◌<◌, IsTrue, IfOk, length};
ghost use Rattle.clr_rules.specs.FirstPath.{IsFirstObeying, IsLeastLead};
ghost use Rattle.clr_rules.specs.LiveSummaries.{is_live_summary, live_pairs};
ghost use Rattle.clr_rules.specs.Rules.{IsPath, IsRulebook};

use crate::live_weeks::Live;
use crate::season_rules::{Rules, Summary};
use std::alloc::{AllocError, Global};

// The least rung that leads from a live summary to a live one, and that summary.
fn least_lead(rules: &Rules, live: &Live, done: u32, s: Summary) -> (u32, Summary)
    requires rules { IsRulebook rules.now }
    requires live { live.now ≡ live_pairs rules.now }
    requires early { done < rules.now.weeks }
    requires here { IsTrue (is_live_summary rules.now done s) }
    ensures { IsLeastLead rules.now done s result.0 result.1 }
{
    for rung in 1..rules.rungs() + 1 {
        if let Some(next) = rules.next(done, s, rung) {
            if live.has(done + 1, next) {
                return (rung, next);
            }
        }
    }
    unreachable!()
}

/// The first obeying path: of two paths the one with the lesser rung in the first week in which they differ comes first.
/// It has a rung, counted from 1, for each week. `live` is that of these rules, and some path obeys.
///
/// # Errors
/// Where memory is wanting.
pub fn first_path(alloc: Global, rules: &Rules, live: &Live) -> Result<Vec<u32>, AllocError>
    requires live { live.now ≡ live_pairs rules.now }
    requires some { 0 < length live.now }
    ensures first { IfOk result (λ path. IsFirstObeying rules.now path.items) }
    ensures path { IfOk result (λ path. IsPath rules.now path.items) }
{
    let weeks = rules.weeks();
    let mut path = Vec::with_capacity(alloc, weeks as usize)?;
    let mut summary = rules.start();
    for done in 0..weeks {
        let (rung, next) = least_lead(rules, live, done, summary);
        path.push(rung)?;
        summary = next;
    }
    Ok(path)
}
