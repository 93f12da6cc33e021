// The rows of one week.
ghost use Rattle.std.specs.Prelude.{◌≡◌, pos, [], length, get_or, IfOk};
ghost use Rattle.clr_rows.specs.Rows.{AreRows};
ghost use Rattle.clr_rows.specs.Summaries.{live_week};
ghost use Rattle.clr_rules.specs.LiveSummaries.{live_pairs};

use clr_rules::{Live, Rules};
use std::alloc::{AllocError, Global};
use std::marker::Model;

/// The rows of one week, one for each live summary: the values at the places of a row and, where a week is to come, the
/// choices. It is seen as the two lists of their numbers, row after row.
#[derive(Drop)]
pub struct Week {
    values: Vec<i64>,
    choices: Vec<u8>,
}

impl Model for Week {
    ghost use Rattle.clr_rows.specs.Rows.{WeekRows};

    ghost Value = { WeekRows };

    ghost view = { λ w. record { values = w.values.items; choices = w.choices.items } };
}

impl Week {
    /// A week of these rows.
    pub fn new(values: Vec<i64>, choices: Vec<u8>) -> Week
        ensures values { result.values ≡ values.items }
        ensures choices { result.choices ≡ choices.items }
    {
        Week { values, choices }
    }

    /// The values, row after row.
    pub fn values(&self) -> &[i64]
        ensures { result.now ≡ self.now.values }
    {
        &self.values
    }

    /// The choices, row after row.
    pub fn choices(&self) -> &[u8]
        ensures { result.now ≡ self.now.choices }
    {
        &self.choices
    }
}

/// The rows at the end of the season: one row, the same for all live summaries, and no choices.
///
/// # Errors
/// Where memory is wanting.
pub fn end_rows(alloc: Global, rules: &Rules, live: &Live, row: &[i64]) -> Result<Week, AllocError>
    requires { live.now ≡ live_pairs rules.now }
    ensures values { IfOk result (λ week. AreRows (pos 0) (length row.now) (live_week rules.now rules.now.weeks) (length (live_week rules.now rules.now.weeks)) (λ s x. get_or row.now x (pos 0)) week.values) }
    ensures choices { IfOk result (λ week. week.choices ≡ []) }
{
    let count = live.count(rules.weeks()) as usize;
    let mut values = Vec::with_capacity(alloc, count.saturating_mul(row.len()))?;
    for place in 0..count {
        values.extend_from_slice(row)?;
    }
    Ok(Week::new(values, Vec::new(alloc)))
}
