// The step of multipliers, by rows: a row has the entries of all stores for one week and rung.
ghost use Rattle.clr_mult.specs.Rows.{AreRowsMoved, moved};
ghost use Rattle.clr_mult.specs.Steps.{IsSmall};
ghost use Rattle.std.specs.Prelude.{◌≡◌, ℕ, ◌*◌, ◌≤◌, pos, ◌-ℤ◌, ◌*ℤ◌, get_or, if◌then◌else◌, length, sum, EachIndex, IfOk};

use std::alloc::{AllocError, Global};

/// A store's usage less the mean, and one less where the store is ahead.
fn direction(used: u32, mean: u64, ahead: bool) -> i64
    requires used { used ≤ 1000000 }
    requires mean { mean ≤ 1000000 }
    ensures value { result ≡ pos used -ℤ pos mean -ℤ pos (if ahead then 1 else 0) }
    ensures small { IsSmall 1000001 result }
{
    i64::from(used) - mean as i64 - i64::from(ahead)
}

/// The entry after a step: `q` times against its direction.
fn moved(entry: i64, q: u64, direction: i64) -> i64
    requires entry { IsSmall 9000000000000000 entry }
    requires factor { q ≤ 100000000 }
    requires direction { IsSmall 1000001 direction }
    ensures { result ≡ entry -ℤ pos q *ℤ direction }
{
    entry - q as i64 * direction
}

/// The sum of a row.
fn row_sum(row: &[u32]) -> u64
    requires { length row.now ≤ 64 }
    ensures { result ≡ sum row.now }
{
    row.iter().map(|used| u64::from(*used)).sum()
}

/// Moves each entry of a row.
fn step_row(q: u64, usage: &[u32], row: &mut [i64])
    requires some { 1 ≤ length row.old }
    requires few { length row.old ≤ 64 }
    requires same { length usage.now ≡ length row.old }
    requires factor { q ≤ 100000000 }
    requires small { EachIndex row.old (λ i. IsSmall 9000000000000000 (get_or row.old i (pos 0))) }
    requires part { (i : ℕ) → get_or usage.now i 0 ≤ 1000000 }
    ensures { EachIndex row.new (λ i. get_or row.new i (pos 0) ≡ moved q usage.now row.old i) }
{
    let total = row_sum(usage);
    let stores = usage.len() as u64;
    let mean = total / stores;
    let left_over = total % stores;
    for index in 0..row.len() {
        let ahead = (index as u64) < left_over;
        row[index] = moved(row[index], q, direction(usage[index], mean, ahead));
    }
}

/// Moves each entry of a table of so many rows, `q` times against the direction of its usage.
fn step_rows(q: u64, stores: usize, rows: usize, usage: &[u32], entries: &mut [i64])
    requires some { 1 ≤ stores }
    requires few { stores ≤ 64 }
    requires rows { rows ≤ 624 }
    requires count { length entries.old ≡ rows * stores }
    requires same { length usage.now ≡ rows * stores }
    requires factor { q ≤ 100000000 }
    requires small { EachIndex entries.old (λ k. IsSmall 9000000000000000 (get_or entries.old k (pos 0))) }
    requires part { (k : ℕ) → get_or usage.now k 0 ≤ 1000000 }
    ensures { AreRowsMoved q stores rows usage.now entries.old entries.new }
{
    for row in 0..rows {
        let from = row * stores;
        let to = from + stores;
        step_row(q, &usage[from..to], &mut entries[from..to]);
    }
}

/// The entries of a table of so many rows after a step.
pub(crate) fn next_entries(
    alloc: Global,
    q: u64,
    stores: usize,
    rows: usize,
    usage: &[u32],
    entries: &[i64],
) -> Result<Vec<i64>, AllocError>
    requires some { 1 ≤ stores }
    requires few { stores ≤ 64 }
    requires rows { rows ≤ 624 }
    requires count { length entries.now ≡ rows * stores }
    requires same { length usage.now ≡ rows * stores }
    requires factor { q ≤ 100000000 }
    requires small { EachIndex entries.now (λ k. IsSmall 9000000000000000 (get_or entries.now k (pos 0))) }
    requires part { (k : ℕ) → get_or usage.now k 0 ≤ 1000000 }
    ensures count { IfOk result (λ next. length next.items ≡ rows * stores) }
    ensures moved { IfOk result (λ next. AreRowsMoved q stores rows usage.now entries.now next.items) }
{
    let mut next = Vec::from_slice(alloc, entries)?;
    step_rows(q, stores, rows, usage, &mut next);
    Ok(next)
}
