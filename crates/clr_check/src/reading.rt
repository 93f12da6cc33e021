// A line at its place: its key and its numbers, and their ranges.
ghost use Rattle.clr_check.specs.Fields.{AreRead, IsLineRead, are_joint_in_range};
ghost use Rattle.clr_cert.specs.Entries.{most_entry, most_mult};
ghost use Rattle.clr_cert.specs.Places.{IsPlaceOf};
ghost use Rattle.clr_cert.specs.Reading.{are_in_range, comma_fields, count_at, fields_after, is_joint_rung, is_rung, is_within, line_numbers, most_total, numbers_in};
ghost use Rattle.clr_rules.specs.LiveSummaries.{live_pairs};
ghost use Rattle.std.specs.List.{list_all};
ghost use Rattle.std.specs.Prelude.{◌≡◌, ◌≤◌, Some, None, length, MatchOption};

use crate::fields::read_numbers;
use clr_cert::{LineBuffer, Place};
use clr_rules::Live;
use clr_season::Season;

/// The most bytes of a line, without its line feed.
const LONGEST: usize = 65_536;

/// The greatest multiplier, in size.
const MOST_MULT: u128 = 10_000_000_000_000_000;

/// The greatest entry of a table, in size.
const MOST_ENTRY: u128 = 1_000_000_000_000_000_000;

/// The greatest total, in size.
const MOST_TOTAL: u128 = 100_000_000_000_000_000_000;

// The text after a key, where a line begins with it.
fn after_key<'a>(key: &LineBuffer, line: &'a [u8]) -> Option<&'a [u8]>
    ensures { MatchOption result (fields_after key.now line.now ≡ None) (λ rest. fields_after key.now line.now ≡ comma_fields rest.now) }
{
    line.strip_prefix(key.bytes())
}

// Reads the numbers of a line at a place, as many as there is room for. None where the line hasn't the place's form; false
// where one of the numbers is too large to be told. `key` is room for the place's key.
pub(crate) fn read_line(
    season: &Season,
    live: &Live,
    place: Place,
    line: &[u8],
    key: &mut LineBuffer,
    numbers: &mut [i128],
) -> Option<bool>
    requires live { live.now ≡ live_pairs season.now.rules }
    requires place { IsPlaceOf season.now place }
    requires room { length numbers.old ≡ count_at season.now place }
    ensures { MatchOption result (line_numbers season.now place line.now ≡ None) (λ told. IsLineRead season.now place line.now told numbers.new) }
{
    if line.len() > LONGEST {
        return None;
    }
    key.clear();
    key.put_keys(season, live, place);
    match after_key(key, line) {
        Some(rest) => read_numbers(rest, numbers),
        None => None,
    }
}

// Whether no number is larger in size.
fn all_within(numbers: &[i128], most: u128) -> bool
    ensures { result ≡ list_all (is_within most) numbers.now }
{
    numbers.iter().all(|number| number.unsigned_abs() <= most)
}

// Whether a number is a rung of the ladder.
fn is_rung(season: &Season, number: i128) -> bool
    ensures { result ≡ is_rung season.now number }
{
    1 <= number && number <= i128::from(season.rungs())
}

// Whether each number is a rung of the ladder.
fn are_rungs(season: &Season, numbers: &[i128]) -> bool
    ensures { result ≡ list_all (is_rung season.now) numbers.now }
{
    let rungs = i128::from(season.rungs());
    numbers
        .iter()
        .all(|number| 1 <= *number && *number <= rungs)
}

// Whether the numbers of all stores lie in their ranges.
fn are_joint(season: &Season, done: u32, numbers: &[i128]) -> bool
    requires { length numbers.now ≡ 3 }
    ensures { result ≡ are_joint_in_range season.now done numbers.now }
{
    let rung = numbers[0];
    let in_range = if done == season.weeks() {
        rung == 0
    } else {
        is_rung(season, rung)
    };
    in_range && all_within(&numbers[1..], MOST_ENTRY)
}

// Whether the numbers of a place lie in their ranges.
pub(crate) fn in_range(season: &Season, place: Place, numbers: &[i128]) -> bool
    requires { length numbers.now ≡ count_at season.now place }
    ensures { result ≡ are_in_range season.now place numbers.now }
{
    match place {
        Place::Path => are_rungs(season, numbers),
        Place::Mult { .. } => all_within(numbers, MOST_MULT),
        Place::Low { .. } | Place::High { .. } | Place::Value { .. } => {
            all_within(numbers, MOST_ENTRY)
        }
        Place::Joint { done, .. } => are_joint(season, done, numbers),
        Place::Revenue | Place::Bound | Place::Exact => all_within(numbers, MOST_TOTAL),
        Place::Head | Place::Lengths | Place::End => true,
    }
}
