// The conditions of a store's values under multipliers.
ghost use Rattle.clr_average.specs.Average.{IsWithin};
ghost use Rattle.clr_cert.specs.Conditions.{at_least, value_conditions};
ghost use Rattle.clr_cert.specs.declared.no.NoKind.TheVariants as kind;
ghost use Rattle.clr_cert.specs.Entries.{CertEntries, most_entry, most_mult};
ghost use Rattle.clr_cert.specs.Lines.{stocks_of};
ghost use Rattle.clr_rules.specs.LiveSummaries.{is_live_summary, live_pairs};
ghost use Rattle.clr_season.specs.Season.{store_at};
ghost use Rattle.clr_check.specs.Faults.{AreMults, AreNumbers, AreRows, HasRow, IsValueOf, first_fault, rung_conditions};
ghost use Rattle.std.specs.List.{flat_map};
ghost use Rattle.std.specs.Prelude.{◌≡◌, suc, [], ◌∷◌, ◌≤◌, ◌<◌, ◌+◌, ◌*◌, ◌-ℤ◌, IsTrue, length, take, drop};

use crate::faults::{Fault, scaled};
use crate::week::{lead, week_sum, worth};
use clr_cert::NoKind;
use clr_rules::{Live, Summary};
use clr_season::Season;

/// The row at a place, counted from 0, among rows of one width.
pub(crate) fn row_of(rows: &[i64], width: usize, place: usize) -> &[i64]
    requires { (place + 1) * width ≤ length rows.now }
    ensures row { result.now ≡ take width (drop (place * width) rows.now) }
    ensures size { length result.now ≡ width }
{
    let start = place * width;
    &rows[start..start + width]
}

// A value's condition fails: its left side is less than its right side.
fn short_value(left: i128, right: i128) -> Option<Fault>
    ensures { result ≡ first_fault (at_least kind.Value left right ∷ []) }
{
    if right <= left {
        None
    } else {
        Some(Fault {
            kind: NoKind::Value,
            left,
            right,
        })
    }
}

// An entry less a multiplier.
fn without(entry: i128, mult: i64) -> i128
    requires entry { IsWithin most_entry entry }
    requires mult { IsWithin most_mult mult }
    ensures value { result ≡ entry -ℤ mult }
    ensures size { IsWithin 2000000000000000000 result }
{
    entry - i128::from(mult)
}

// The condition of one rung at one stock, where the rung leads to a live summary and the condition fails.
fn rung_fault(
    season: &Season,
    live: &Live,
    mults: &[i64],
    store: u32,
    done: u32,
    s: Summary,
    stock: u32,
    rung: u32,
    entry: i128,
    rows: &[i64],
) -> Option<Fault>
    requires live { live.now ≡ live_pairs season.now.rules }
    requires mults { AreMults season.now mults.now }
    requires low { 1 ≤ store }
    requires high { store ≤ length season.now.stores }
    requires early { done < season.now.rules.weeks }
    requires here { IsTrue (is_live_summary season.now.rules done s) }
    requires stock { stock ≤ (store_at season.now store).units }
    requires rung { (1 ≤ rung) × (rung ≤ length season.now.rules.prices) }
    requires entry { IsWithin most_entry entry }
    requires rows { AreRows season.now store (suc done) rows.now }
    ensures { (entries : CertEntries) → IsValueOf season.now entries done store mults.now rows.now → entries.value done store s stock ≡ entry →
        result ≡ first_fault (rung_conditions season.now entries done store s stock rung) }
{
    match lead(season.rules(), live, done, s, rung) {
        Some((_, place)) => {
            let width = season.stock(store) as usize + 1;
            let after = row_of(rows, width, place as usize);
            let left = scaled(without(entry, mults[rung as usize - 1]), season.base());
            let right = week_sum(season, store, done, s.last, rung, stock, after);
            short_value(left, right)
        }
        None => None,
    }
}

// The first condition of one stock that fails, by rung.
fn stock_fault(
    season: &Season,
    live: &Live,
    mults: &[i64],
    store: u32,
    done: u32,
    s: Summary,
    stock: u32,
    entry: i128,
    rows: &[i64],
) -> Option<Fault>
    requires live { live.now ≡ live_pairs season.now.rules }
    requires mults { AreMults season.now mults.now }
    requires low { 1 ≤ store }
    requires high { store ≤ length season.now.stores }
    requires early { done < season.now.rules.weeks }
    requires here { IsTrue (is_live_summary season.now.rules done s) }
    requires stock { stock ≤ (store_at season.now store).units }
    requires entry { IsWithin most_entry entry }
    requires rows { AreRows season.now store (suc done) rows.now }
    ensures { (entries : CertEntries) → IsValueOf season.now entries done store mults.now rows.now → entries.value done store s stock ≡ entry →
        result ≡ first_fault (value_conditions season.now entries done store s stock) }
{
    for rung in 1..season.rungs() + 1 {
        let fault = rung_fault(
            season, live, mults, store, done, s, stock, rung, entry, rows,
        );
        if fault.is_some() {
            return fault;
        }
    }
    None
}

/// The first value of a store at a live summary, by stock and then by rung, whose condition fails. `entries` has the values
/// of the line, by stock from 0; `mults` the store's multipliers of the next week, by rung from 1; and `rows` the values
/// after it, a row for each live summary.
pub(crate) fn value_fault(
    season: &Season,
    live: &Live,
    mults: &[i64],
    store: u32,
    done: u32,
    s: Summary,
    entries: &[i128],
    rows: &[i64],
) -> Option<Fault>
    requires live { live.now ≡ live_pairs season.now.rules }
    requires mults { AreMults season.now mults.now }
    requires low { 1 ≤ store }
    requires high { store ≤ length season.now.stores }
    requires early { done < season.now.rules.weeks }
    requires here { IsTrue (is_live_summary season.now.rules done s) }
    requires entries { AreNumbers season.now store entries.now }
    requires rows { AreRows season.now store (suc done) rows.now }
    ensures { (all : CertEntries) → IsValueOf season.now all done store mults.now rows.now → HasRow season.now store entries.now (all.value done store s) →
        result ≡ first_fault (flat_map (value_conditions season.now all done store s) (stocks_of season.now store)) }
{
    for stock in 0..season.stock(store) + 1 {
        let entry = entries[stock as usize];
        let fault = stock_fault(season, live, mults, store, done, s, stock, entry, rows);
        if fault.is_some() {
            return fault;
        }
    }
    None
}

/// The first value of a store at the end whose condition fails. `entries` has the values of the line, by stock from 0.
pub(crate) fn last_value_fault(
    season: &Season,
    store: u32,
    s: Summary,
    entries: &[i128],
) -> Option<Fault>
    requires low { 1 ≤ store }
    requires high { store ≤ length season.now.stores }
    requires entries { AreNumbers season.now store entries.now }
    ensures { (all : CertEntries) → HasRow season.now store entries.now (all.value season.now.rules.weeks store s) →
        result ≡ first_fault (flat_map (value_conditions season.now all season.now.rules.weeks store s) (stocks_of season.now store)) }
{
    for stock in 0..season.stock(store) + 1 {
        let fault = short_value(entries[stock as usize], worth(season, store, stock));
        if fault.is_some() {
            return fault;
        }
    }
    None
}
