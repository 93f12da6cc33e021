// A line is read, kept and judged.
ghost use Rattle.clr_cert.specs.Accepts.{numbers_no};
ghost use Rattle.clr_cert.specs.Places.{IsPlaceOf, places};
ghost use Rattle.clr_cert.specs.Reading.{count_at, line_numbers, numbers_told};
ghost use Rattle.clr_check.specs.Standing.{AreTables, IsLineOf, Keeps, most_numbers, no_at, plain_fault};
ghost use Rattle.clr_rules.specs.LiveSummaries.{live_pairs};
ghost use Rattle.std.specs.Prelude.{◌≡◌, ℕ, suc, ◌≤◌, List, length, option_map, slice_get, Some, None};

use crate::conditions::numbers_fault;
use crate::faults::Fault;
use crate::keeping::keep_numbers;
use crate::reading::{in_range, read_line};
use crate::tables::Tables;
use clr_cert::{LineBuffer, NoKind, Place};
use clr_rules::Live;
use clr_season::Season;

/// A fault without numbers.
pub(crate) fn plain(kind: NoKind) -> Fault
    ensures { result ≡ plain_fault kind }
{
    Fault {
        kind,
        left: 0,
        right: 0,
    }
}

/// How many numbers come after the key of a place's line.
pub(crate) fn count_of(season: &Season, place: Place) -> usize
    requires { IsPlaceOf season.now place }
    ensures value { result ≡ count_at season.now place }
    ensures range { result ≤ most_numbers }
{
    match place {
        Place::Head | Place::Lengths | Place::End => 0,
        Place::Path => season.weeks() as usize,
        Place::Mult { .. } => season.stores() as usize,
        Place::Low { store, .. } | Place::High { store, .. } | Place::Value { store, .. } => {
            season.stock(store) as usize + 1
        }
        Place::Joint { .. } => 3,
        Place::Revenue | Place::Exact => 2,
        Place::Bound => 1,
    }
}

// The fault of the numbers of a place's line: one is out of its range, or a condition fails. Else they are kept.
fn take_numbers(
    season: &Season,
    live: &Live,
    place: Place,
    numbers: &[i128],
    tables: &mut Tables,
) -> Option<Fault>
    requires live { live.now ≡ live_pairs season.now.rules }
    requires place { IsPlaceOf season.now place }
    requires tables { AreTables season.now tables.old }
    requires count { length numbers.now ≡ count_at season.now place }
    ensures tables { AreTables season.now tables.new }
    ensures answer { (lines : List (List ℕ)) (row : ℕ) → slice_get (places season.now) row ≡ Some place → numbers_told season.now lines place ≡ numbers.now → Keeps season.now lines row place tables.old →
        numbers_no season.now lines row place (Some numbers.now) ≡ option_map (no_at row) result }
    ensures keeps { (lines : List (List ℕ)) (row : ℕ) → slice_get (places season.now) row ≡ Some place → numbers_told season.now lines place ≡ numbers.now → Keeps season.now lines row place tables.old →
        result ≡ None → Keeps season.now lines (suc row) place tables.new }
{
    if !in_range(season, place, numbers) {
        return Some(plain(NoKind::Range));
    }
    prove!(1 <= season.stores());
    keep_numbers(tables, season, live, place, numbers);
    numbers_fault(season, live, tables, place, numbers)
}

/// Takes the line of a place: its fault, or none, and then the tables keep its numbers. `key` and `numbers` are room to read it.
pub(crate) fn take_line(
    season: &Season,
    live: &Live,
    place: Place,
    line: &[u8],
    key: &mut LineBuffer,
    numbers: &mut [i128],
    tables: &mut Tables,
) -> Option<Fault>
    requires live { live.now ≡ live_pairs season.now.rules }
    requires place { IsPlaceOf season.now place }
    requires tables { AreTables season.now tables.old }
    requires room { length numbers.old ≡ most_numbers }
    ensures room { length numbers.new ≡ most_numbers }
    ensures tables { AreTables season.now tables.new }
    ensures answer { (lines : List (List ℕ)) (row : ℕ) → IsLineOf season.now lines row place line.now → Keeps season.now lines row place tables.old →
        numbers_no season.now lines row place (line_numbers season.now place line.now) ≡ option_map (no_at row) result }
    ensures keeps { (lines : List (List ℕ)) (row : ℕ) → IsLineOf season.now lines row place line.now → Keeps season.now lines row place tables.old →
        result ≡ None → Keeps season.now lines (suc row) place tables.new }
{
    prove!(1 <= season.stores());
    let count = count_of(season, place);
    let read = &mut numbers[..count];
    match read_line(season, live, place, line, key, read) {
        None => Some(plain(NoKind::Form)),
        Some(false) => Some(plain(NoKind::Range)),
        Some(true) => take_numbers(season, live, place, read, tables),
    }
}
