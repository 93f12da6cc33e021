// The certificate of a season with one number or one line changed, and cut after each byte.
//
// A line is refused by its own condition, or by that of a later line which takes one of its numbers. So a number that is raised or
// lowered is refused in its own line where it stands at the limit of its condition on that side. On the other side it is refused in
// the first line whose condition takes it and has no room left; and where no condition without room takes it, the certificate is still
// accepted, and what it claims still holds. A number that the season determines may have no other value at all.
use crate::answers::{Want, count, is_answered_over, number, want_of};
use crate::asks::{Ask, assert_answers};
use crate::seasons::{CERTIFICATE, add_rows, spliced};
use clr_season::Season;
use std::alloc::{AllocError, Global};
use std::test::Fail;

// The length of the shelf's reads.
const PIECE: usize = 16;

// A row, a field behind its letter, and the answers where the number that stands there is one more and where it is one less. The
// sides are twice an entry and the sum over both demands, since the weights are out of 2; in the last lines they are the two numbers.
const ANSWERS: &str = "
# On rung 2 nothing is sold in week 1, so the first entry that is too great is that of one unit. On rung 1 two units left for week
# 2 earn 10.00 with weight 1, and not 8.00 with weight 2.
2 1: 27 Low 1400000000 800000000 / 2 Range 0 0
2 2: 2 Range 0 0 / 17 Low 1600000000 1000000000
3 3: 3 Sum 1 0 / 3 Sum -1 0
4 3: 4 Sum 1 0 / 4 Sum -1 0
5 3: 5 Sum 1 0 / 5 Sum -1 0
6 3: 6 Sum 1 0 / 6 Sum -1 0
# After week 2 all stock is sold on the path, and so no more than the entry of no unit is taken.
7 3: 7 Low 1 0 / 17 Low 0 -2
7 4: 7 Low 1 0 / yes
7 5: 7 Low 1 0 / yes
8 3: 18 High 0 2 / 8 High -1 0
8 4: yes / 8 High -1 0
8 5: yes / 8 High -1 0
# Rung 1 leaves one unit of one with weight 1. Of two it leaves one or two, but there rung 2 earns more.
9 6: 19 Value 0 2 / 9 Value -1 0
9 7: 19 Value 1000000000 1000000001 / 9 Value -1 0
9 8: yes / 9 Value -1 0
10 6: 19 Value 0 2 / 10 Value -1 0
10 7: yes / 10 Value -1 0
10 8: yes / 10 Value -1 0
11 6: 11 Range 0 0 / 11 Range 0 0
11 7: 11 JointLow 1 0 / 21 JointLow 0 -2
11 8: 21 JointTop 0 2 / 11 JointTop -1 0
12 6: 12 Range 0 0 / 12 Range 0 0
12 7: 12 JointLow 1 0 / 22 JointLow 1000000000 999999999
12 8: 22 JointTop 1000000000 1000000001 / 12 JointTop -1 0
13 6: 13 Range 0 0 / 13 Range 0 0
13 7: 13 JointLow 1 0 / yes
13 8: yes / 13 JointTop -1 0
14 6: 14 Range 0 0 / 14 Range 0 0
14 7: 14 JointLow 1 0 / 23 JointLow 1600000000 1599999998
14 8: 21 JointTop 0 2 / 14 JointTop -1 0
15 6: 15 Range 0 0 / 15 Range 0 0
15 7: 15 JointLow 1 0 / yes
15 8: yes / 15 JointTop -1 0
16 6: 16 Range 0 0 / 16 Range 0 0
16 7: 16 JointLow 1 0 / yes
16 8: yes / 16 JointTop -1 0
17 3: 17 Low 2 0 / 27 Low 0 -2
17 4: 17 Low 800000002 800000000 / 27 Low 1400000000 1399999999
17 5: 17 Low 1600000002 1600000000 / 27 Low 2200000000 2199999999
18 3: 28 High 0 2 / 18 High -2 0
18 4: 28 High 1400000000 1400000001 / 18 High 799999998 800000000
18 5: 28 High 2200000000 2200000001 / 18 High 1599999998 1600000000
19 6: 29 Value 0 2 / 19 Value -2 0
19 7: 29 Value 1500000000 1500000001 / 19 Value 999999998 1000000000
19 8: 29 Value 2300000000 2300000001 / 19 Value 1599999998 1600000000
# Rung 2 in week 1 leads here. With stock it earns less than rung 1, by more than one.
20 6: 29 Value 0 2 / 20 Value -2 0
20 7: yes / 20 Value 799999998 800000000
20 8: yes / 20 Value 1599999998 1600000000
# Without stock both rungs earn nothing. With one unit rung 2 earns 4.00, with two rung 1 earns 5.00.
21 6: yes / 21 Range 0 0
21 7: 21 JointLow 2 0 / 30 JointLow 0 -2
21 8: 30 JointTop 0 2 / 21 JointTop -2 0
22 6: 22 JointLow 1000000000 800000000 / 22 Range 0 0
22 7: 22 JointLow 1000000002 1000000000 / 31 JointLow 1500000000 1499999999
22 8: 31 JointTop 1500000000 1500000001 / 22 JointTop 999999998 1000000000
23 6: 23 Range 0 0 / 23 JointLow 1600000000 1000000000
23 7: 23 JointLow 1600000002 1600000000 / 32 JointLow 2300000000 2299999999
23 8: 32 JointTop 2300000000 2300000001 / 23 JointTop 1599999998 1600000000
# After rung 2 the price may not rise. The chosen rungs lead nowhere here, so no low is taken from these lines.
24 6: 24 Range 0 0 / 24 Rung 2 1
24 7: 24 JointLow 2 0 / yes
24 8: 30 JointTop 0 2 / 24 JointTop -2 0
25 6: 25 Range 0 0 / 25 Rung 2 1
25 7: 25 JointLow 800000002 800000000 / yes
25 8: yes / 25 JointTop 799999998 800000000
26 6: 26 Range 0 0 / 26 Rung 2 1
26 7: 26 JointLow 1600000002 1600000000 / yes
26 8: yes / 26 JointTop 1599999998 1600000000
# The totals take the entries of two units alone.
27 3: 27 Low 2 0 / yes
27 4: 27 Low 1400000002 1400000000 / yes
27 5: 27 Low 2200000002 2200000000 / 33 Total 1100000000 1099999999
28 3: yes / 28 High -2 0
28 4: yes / 28 High 1399999998 1400000000
28 5: 33 Total 1100000000 1100000001 / 28 High 2199999998 2200000000
29 6: yes / 29 Value -2 0
29 7: yes / 29 Value 1499999998 1500000000
29 8: 34 Total 1150000000 1150000001 / 29 Value 2299999998 2300000000
30 6: yes / 30 Range 0 0
30 7: 30 JointLow 2 0 / yes
30 8: yes / 30 JointTop -2 0
31 6: 31 JointLow 1500000000 800000000 / 31 Range 0 0
31 7: 31 JointLow 1500000002 1500000000 / yes
31 8: yes / 31 JointTop 1499999998 1500000000
32 6: 32 JointLow 2300000000 1600000000 / 32 Range 0 0
32 7: 32 JointLow 2300000002 2300000000 / 35 Total 1150000000 1149999999
32 8: 35 Total 1150000000 1150000001 / 32 JointTop 2299999998 2300000000
33 1: 33 Total 1100000001 1100000000 / 33 Total 1099999999 1100000000
33 2: 33 Total 1100000001 1100000000 / 33 Total 1099999999 1100000000
34 1: 34 Total 1150000001 1150000000 / 34 Total 1149999999 1150000000
35 1: 35 Total 1150000001 1150000000 / 35 Total 1149999999 1150000000
35 2: 35 Total 1150000001 1150000000 / 35 Total 1149999999 1150000000
";

// The two answers of a line of the table, where it is that of this row and field.
fn answers_of(line: &str, row: usize, field: usize) -> Option<(&str, &str)> {
    let (place, answers) = line.split_once(": ")?;
    let (of_row, of_field) = place.split_once(' ')?;
    if count(of_row) == row && count(of_field) == field {
        answers.split_once(" / ")
    } else {
        None
    }
}

// The answers where the number of a row and a field is raised and lowered by one: those of the table, or for a number that the season
// determines that the line isn't the next.
fn answers_for(row: usize, field: usize) -> (Want<'static>, Want<'static>) {
    for line in ANSWERS.lines() {
        if let Some((raised, lowered)) = answers_of(line, row, field) {
            return (want_of(raised), want_of(lowered));
        }
    }
    (form(row), form(row))
}

// The refusal of a row that isn't the next.
fn form(row: usize) -> Want<'static> {
    Want {
        row,
        rest: "Form 0 0",
    }
}

// Adds a number that is changed by so much.
fn add_number(alloc: Global, text: &mut Vec<u8>, part: &str, by: i64) -> Result<(), AllocError> {
    let changed = number(part).wrapping_add(by);
    let changed = format!(in alloc; "{changed}")?;
    text.extend_from_slice(changed.as_bytes())
}

// A line with its line feed, and with the number in a field changed by so much.
fn changed_line(alloc: Global, line: &str, field: usize, by: i64) -> Result<Vec<u8>, AllocError> {
    let mut text = Vec::new(alloc);
    for (index, part) in line.split(',').enumerate() {
        if index > 0 {
            text.push(b',')?;
        }
        if index == field {
            add_number(alloc, &mut text, part, by)?;
        } else {
            text.extend_from_slice(part.as_bytes())?;
        }
    }
    text.push(b'\n')?;
    Ok(text)
}

// Whether the checker answers this for a certificate.
fn is_answered(
    alloc: Global,
    season: &Season,
    text: &[u8],
    want: Want<'_>,
) -> Result<bool, AllocError> {
    is_answered_over(alloc, season, "c", text, PIECE, 0, want)
}

// Whether the checker answers this where a text stands in the place of a row.
fn is_row_answered(
    alloc: Global,
    season: &Season,
    row: usize,
    text: &[u8],
    want: Want<'_>,
) -> Result<bool, AllocError> {
    let text = spliced(alloc, row.saturating_sub(1), text, row)?;
    is_answered(alloc, season, &text, want)
}

/// Whether the checker answers as it must where each number of a row is raised and lowered by one.
pub fn are_numbers_answered(
    alloc: Global,
    season: &Season,
    row: usize,
    line: &str,
) -> Result<bool, AllocError> {
    for field in 1..line.split(',').count() {
        let (raised, lowered) = answers_for(row, field);
        for (by, want) in [(1, raised), (-1, lowered)] {
            let text = changed_line(alloc, line, field, by)?;
            if !is_row_answered(alloc, season, row, &text, want)? {
                return Ok(false);
            }
        }
    }
    Ok(true)
}

#[test]
fn each_number_is_raised_and_lowered(rt: HostRuntime) -> Result<(), Fail> {
    assert_answers(&rt, rt.alloc(), Ask::Numbers, "adaptive", CERTIFICATE)
}

// Whether the row where it is dropped is refused. No two lines have the same keys, so the first row whose line is another isn't the next.
fn is_dropped(alloc: Global, season: &Season, row: usize) -> Result<bool, AllocError> {
    let want = if row == 35 {
        Want {
            row,
            rest: "Short 0 0",
        }
    } else {
        form(row)
    };
    is_row_answered(alloc, season, row, b"", want)
}

// Whether the row behind a doubled one is refused.
fn is_doubled(alloc: Global, season: &Season, row: usize) -> Result<bool, AllocError> {
    let want = if row == 35 {
        Want {
            row: 36,
            rest: "Extra 0 0",
        }
    } else {
        form(row.saturating_add(1))
    };
    let text = spliced(alloc, row, b"", row.saturating_sub(1))?;
    is_answered(alloc, season, &text, want)
}

// Whether a row that is swapped with the next is refused; nothing is behind the last.
fn is_swapped(alloc: Global, season: &Season, row: usize) -> Result<bool, AllocError> {
    if row == 35 {
        return Ok(true);
    }
    let mut swapped = Vec::new(alloc);
    add_rows(&mut swapped, row, row.saturating_add(1))?;
    add_rows(&mut swapped, row.saturating_sub(1), row)?;
    let text = spliced(
        alloc,
        row.saturating_sub(1),
        &swapped,
        row.saturating_add(1),
    )?;
    is_answered(alloc, season, &text, form(row))
}

/// Whether the checker refuses as it must where a row is dropped, doubled and swapped with the next.
pub fn are_lines_answered(alloc: Global, season: &Season, row: usize) -> Result<bool, AllocError> {
    Ok(
        is_dropped(alloc, season, row)?
            && is_doubled(alloc, season, row)?
            && is_swapped(alloc, season, row)?,
    )
}

#[test]
fn each_line_is_dropped_doubled_and_swapped(rt: HostRuntime) -> Result<(), Fail> {
    assert_answers(&rt, rt.alloc(), Ask::Changes, "adaptive", CERTIFICATE)
}

/// Whether the checker misses a row behind each number of its bytes. A line is missing where its line feed is.
pub fn are_cuts_answered(
    alloc: Global,
    season: &Season,
    row: usize,
    line: &str,
) -> Result<bool, AllocError> {
    let bytes = line.as_bytes();
    let want = Want {
        row,
        rest: "Short 0 0",
    };
    for count in 0..=bytes.len() {
        let text = spliced(alloc, row.saturating_sub(1), &bytes[..count], 35)?;
        if !is_answered(alloc, season, &text, want)? {
            return Ok(false);
        }
    }
    Ok(true)
}

#[test]
fn it_is_cut_after_each_byte(rt: HostRuntime) -> Result<(), Fail> {
    assert_answers(&rt, rt.alloc(), Ask::Cuts, "adaptive", CERTIFICATE)
}
