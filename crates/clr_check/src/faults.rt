// The conditions of a line, and the first of them that fails.
ghost use Rattle.clr_average.specs.Average.{IsWithin};
ghost use Rattle.clr_cert.specs.Conditions.{path_entry};
ghost use Rattle.clr_cert.specs.Entries.{most_entry};
ghost use Rattle.clr_cert.specs.Lines.{stocks_of};
ghost use Rattle.clr_rules.specs.Rules.{IsPath, rung_at};
ghost use Rattle.clr_season.specs.Season.{store_at};
ghost use Rattle.clr_check.specs.Faults.{AreNumbers, HasRow, compare_by, entry_left, entry_right, first_fault};
ghost use Rattle.clr_check.specs.Weeks.{AreEntries};
ghost use Rattle.std.specs.Prelude.{◌≡◌, ℕ, ℤ, suc, ◌≤◌, ◌<◌, ◌+◌, ◌*◌, pos, ◌*ℤ◌, [], ◌∷◌, length, map};

use crate::week::{week_sum, worth};
use clr_cert::NoKind;
use clr_model::Path;
use clr_season::Season;

/// A condition that fails: what is wrong, and its two sides.
#[derive(Clone, Copy)]
pub(crate) struct Fault {
    pub(crate) kind: NoKind,
    pub(crate) left: i128,
    pub(crate) right: i128,
}

/// On which side of what a path earns its entries must lie.
#[derive(Clone, Copy)]
pub(crate) enum Bound {
    Below,
    Above,
}

// The condition of an entry of a path's values fails.
fn bad_entry(bound: Bound, left: i128, right: i128) -> Option<Fault>
    ensures { result ≡ first_fault (compare_by bound left right ∷ []) }
{
    let (kind, holds) = match bound {
        Bound::Below => (NoKind::Low, left <= right),
        Bound::Above => (NoKind::High, left >= right),
    };
    if holds {
        None
    } else {
        Some(Fault { kind, left, right })
    }
}

// A value times the base.
pub(crate) fn scaled(value: i128, base: u32) -> i128
    requires value { IsWithin 2000000000000000000 value }
    requires base { base ≤ 1000000 }
    ensures value { result ≡ value *ℤ pos base }
    ensures size { IsWithin 2000000000000000000000000 result }
{
    value * i128::from(base)
}

// The two sides of the condition of an entry after `done` weeks, on the path's rung of the next week after the rung before
// it: nothing is averaged at the end.
fn entry_sides(
    season: &Season,
    store: u32,
    done: u32,
    before: u32,
    rung: u32,
    stock: u32,
    entry: i128,
    after: &[i64],
) -> (i128, i128)
    requires low { 1 ≤ store }
    requires high { store ≤ length season.now.stores }
    requires early { done ≤ season.now.rules.weeks }
    requires before { (1 ≤ before) × (before ≤ length season.now.rules.prices) }
    requires rung { (1 ≤ rung) × (rung ≤ length season.now.rules.prices) }
    requires stock { stock ≤ (store_at season.now store).units }
    requires entry { IsWithin most_entry entry }
    requires after { AreEntries season.now store after.now }
    ensures left { result.0 ≡ entry_left season.now done entry }
    ensures right { result.1 ≡ entry_right season.now store done before rung stock after.now }
    ensures left_size { IsWithin 1000000000000000000000000000 result.0 }
    ensures right_size { IsWithin 1000000000000000000000000000 result.1 }
{
    if done == season.weeks() {
        (entry, worth(season, store, stock))
    } else {
        let sum = week_sum(season, store, done, before, rung, stock, after);
        (scaled(entry, season.base()), sum)
    }
}

// The rung in force before week `done + 1`, and the rung of that week, and 1 after the last.
fn rungs_round(path: &Path, done: u32) -> (u32, u32)
    requires { done ≤ length path.now }
    ensures before { result.0 ≡ rung_at path.now done }
    ensures rung { done < length path.now → result.1 ≡ rung_at path.now (suc done) }
    ensures last { done ≡ length path.now → result.1 ≡ 1 }
{
    let before = if done == 0 { 1 } else { path.rung(done) };
    let rung = if done < path.len() {
        path.rung(done + 1)
    } else {
        1
    };
    (before, rung)
}

/// The first entry of a store's values along the path, after `done` weeks, whose condition fails. `entries` has those of the
/// line, by stock from 0, and `after` those after the next week.
pub(crate) fn entry_fault(
    season: &Season,
    bound: Bound,
    path: &Path,
    done: u32,
    store: u32,
    entries: &[i128],
    after: &[i64],
) -> Option<Fault>
    requires low { 1 ≤ store }
    requires high { store ≤ length season.now.stores }
    requires early { done ≤ season.now.rules.weeks }
    requires path { IsPath season.now.rules path.now }
    requires entries { AreNumbers season.now store entries.now }
    requires after { AreEntries season.now store after.now }
    ensures { (table : ℕ → ℕ → ℕ → ℤ) → HasRow season.now store entries.now (table done store) →
        (done < season.now.rules.weeks → HasRow season.now store after.now (table (suc done) store)) →
        result ≡ first_fault (map (path_entry (compare_by bound) season.now path.now table done store) (stocks_of season.now store)) }
{
    prove!(done <= season.weeks());
    let (before, rung) = rungs_round(path, done);
    for stock in 0..season.stock(store) + 1 {
        let entry = entries[stock as usize];
        let (left, right) = entry_sides(season, store, done, before, rung, stock, entry, after);
        if let Some(fault) = bad_entry(bound, left, right) {
            return Some(fault);
        }
    }
    None
}
