// A week's rows from the averages of the week that follows.
ghost use Rattle.std.specs.Prelude.{◌≡◌, ℕ, suc, ◌≤◌, ◌<◌, ◌-◌, ◌*◌, ℤ, length, IfOk, IsTrue};
ghost use Rattle.clr_average.specs.Average.{IsWithin};
ghost use Rattle.clr_rows.specs.Leads.{AreBestRows, IsBestSoFar};
ghost use Rattle.clr_rows.specs.Rows.{AreWithin};
ghost use Rattle.clr_rows.specs.Summaries.{live_week};
ghost use Rattle.clr_rules.specs.LiveSummaries.{is_live_summary, live_pairs};
ghost use Rattle.clr_rules.specs.Rules.{IsRulebook};

use crate::best::{LOWEST, raise_row};
use crate::rows::row_of;
use crate::summaries::lead;
use crate::week::Week;
use clr_rules::{Live, Rules, Summary};
use std::alloc::{AllocError, Global};

/// What is added to the averages of a week for a rung after another.
pub trait Added {
    /// What is added, by the rung before and the rung.
    ghost more: { Self → ℕ → ℕ → ℤ };

    /// Which rungs it may be asked for.
    ghost may_ask: { Self → ℕ → Type 0 };

    /// What is added for a rung after another.
    fn added(&self, before: u32, rung: u32) -> i64
        requires { may_ask self.now rung }
        ensures value { result ≡ more self.now before rung }
        ensures size { IsWithin 1000000000000000000 result };
}

/// One rung more: the values and the choices by the rungs up to it.
fn try_rung<A: Added>(
    rules: &Rules,
    live: &Live,
    added: &A,
    done: u32,
    s: Summary,
    rung: u32,
    averages: &[i64],
    values: &mut [i64],
    choices: &mut [u8],
)
    requires rules { IsRulebook rules.now }
    requires live { live.now ≡ live_pairs rules.now }
    requires early { done < rules.now.weeks }
    requires here { IsTrue (is_live_summary rules.now done s) }
    requires low { 1 ≤ rung }
    requires high { rung ≤ length rules.now.prices }
    requires asked { A.may_ask added.now rung }
    requires same { length choices.old ≡ length values.old }
    requires size { length averages.now ≡ length (live_week rules.now (suc done)) * length values.old }
    requires within { AreWithin 2000000000000000000 averages.now }
    requires so_far { IsBestSoFar rules.now done (length values.old) averages.now (A.more added.now) s (rung - 1) values.old choices.old }
    ensures { IsBestSoFar rules.now done (length values.old) averages.now (A.more added.now) s rung values.new choices.new }
{
    match lead(rules, live, done, s, rung) {
        Some(place) => {
            let row = row_of(averages, values.len(), place as usize);
            let more = added.added(s.last, rung);
            raise_row(row, more, rung as u8, values, choices);
        }
        None => (),
    }
}

/// Writes the values and the choices at a live summary, at the places of a row.
///
/// `averages` has the averages of the next week for each live summary after it.
fn best_row<A: Added>(
    rules: &Rules,
    live: &Live,
    added: &A,
    done: u32,
    s: Summary,
    averages: &[i64],
    values: &mut [i64],
    choices: &mut [u8],
)
    requires rules { IsRulebook rules.now }
    requires live { live.now ≡ live_pairs rules.now }
    requires early { done < rules.now.weeks }
    requires here { IsTrue (is_live_summary rules.now done s) }
    requires asked { (rung : ℕ) → 1 ≤ rung → rung ≤ length rules.now.prices → A.may_ask added.now rung }
    requires same { length choices.old ≡ length values.old }
    requires size { length averages.now ≡ length (live_week rules.now (suc done)) * length values.old }
    requires within { AreWithin 2000000000000000000 averages.now }
    ensures { IsBestSoFar rules.now done (length values.old) averages.now (A.more added.now) s (length rules.now.prices) values.new choices.new }
{
    values.fill(LOWEST);
    choices.fill(1);
    for rung in 1..rules.rungs() + 1 {
        try_rung(rules, live, added, done, s, rung, averages, values, choices);
    }
}

/// The rows of a week from the averages of the week that follows: at each live summary, and at each place of a row, the
/// greatest of the averages after the rungs that lead to a live summary, with what is added, and the least rung that attains
/// it.
///
/// `list` has the live summaries after `done` weeks, in their order; `averages` has a row for each of those after one week
/// more.
///
/// # Errors
/// Where memory is wanting.
pub fn best_rows<A: Added>(
    alloc: Global,
    rules: &Rules,
    live: &Live,
    added: &A,
    done: u32,
    width: usize,
    list: &[Summary],
    averages: &[i64],
) -> Result<Week, AllocError>
    requires rules { IsRulebook rules.now }
    requires live { live.now ≡ live_pairs rules.now }
    requires early { done < rules.now.weeks }
    requires asked { (rung : ℕ) → 1 ≤ rung → rung ≤ length rules.now.prices → A.may_ask added.now rung }
    requires list { list.now ≡ live_week rules.now done }
    requires size { length averages.now ≡ length (live_week rules.now (suc done)) * width }
    requires within { AreWithin 2000000000000000000 averages.now }
    ensures { IfOk result (λ week. AreBestRows rules.now done width averages.now (A.more added.now) (length list.now) week.values week.choices) }
{
    let mut values = Vec::with_capacity(alloc, list.len().saturating_mul(width))?;
    let mut choices = Vec::with_capacity(alloc, list.len().saturating_mul(width))?;
    let mut row = vec![in alloc; 0; width]?;
    let mut chosen = vec![in alloc; 1; width]?;
    for s in list {
        best_row(
            rules,
            live,
            added,
            done,
            *s,
            averages,
            &mut row,
            &mut chosen,
        );
        values.extend_from_slice(&row)?;
        choices.extend_from_slice(&chosen)?;
    }
    Ok(Week::new(values, choices))
}
