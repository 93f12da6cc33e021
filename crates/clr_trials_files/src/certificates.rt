// Certificates on shelves in memory, by reads of several lengths.
use crate::answers::{count, is_answered, is_answered_over, want_of};
use crate::asks::{Ask, assert_answers};
use crate::seasons::{bytes_of, spliced};
use clr_season::Season;
use std::alloc::{AllocError, Global};
use std::test::Fail;

// The cases are lines: a text, and behind `;` the answer, which is `yes`, or the row of a refusal with its kind and its two sides. In the
// text `|` stands for a line feed, `^` for a carriage return, `!` for a byte that is no UTF-8, and `1*65530` at its end for so many ones.

// Lines that are put in the place of the row that is refused. A line is judged by its form first, then by the ranges of its numbers, then
// by its conditions.
const CHANGED: &str = "clearance certificate 2;1 Form 0 0
clearance certificate 0;1 Form 0 0
clearance certificate 1 ;1 Form 0 0
;1 Form 0 0
path,1;2 Form 0 0
path,1,2,1;2 Form 0 0
path, 1,2;2 Form 0 0
m,1,1;3 Form 0 0
m,1,1,;3 Form 0 0
m,1,1,-0;3 Form 0 0
M,1,1,0;3 Form 0 0
l,1,1,00,400000000,800000000;17 Form 0 0
l,1,1,0,+400000000,800000000;17 Form 0 0
l,1,1,0,1000000000000000001,00;17 Form 0 0
path,1,3;2 Range 0 0
path,0,2;2 Range 0 0
m,1,1,10000000000000001;3 Range 0 0
m,1,1,-10000000000000001;3 Range 0 0
j,2,1,0,1,0,1,0,0;11 Range 0 0
l,1,1,1,400000000,1000000000000000001;17 Range 0 0
revenue,100000000000000000001,1100000000;33 Range 0 0
bound,-100000000000000000001;34 Range 0 0
bound,9999999999999999999999999999999999999999999999;34 Range 0 0
path,2,1;2 Path 2 1
m,1,1,10000000000000000;3 Sum 10000000000000000 0
m,1,1,-10000000000000000;3 Sum -10000000000000000 0
l,2,1,0,3,2;7 Low 3 0
h,2,1,0,0,-1;8 High -1 0
v,2,1,1,0,1,0,-7,0;9 Value -7 0
l,1,1,0,400000000,1000000000000000000;17 Low 2000000000000000000 1600000000
l,1,1,0,400000001,800000001;17 Low 800000002 800000000
h,1,1,0,399999999,799999999;18 High 799999998 800000000
v,0,1,1,0,1,0,750000000,1149999999;29 Value 2299999998 2300000000
j,1,2,1,1,0,1,1,-1;24 Rung 2 1
j,1,1,0,1,1,1,500000001,399999999;22 JointLow 1000000002 1000000000
j,1,1,0,1,1,1,500000000,399999999;22 JointTop 799999998 1000000000
revenue,100000000000000000000,1100000001;33 Total 100000000000000000000 1100000000
bound,-100000000000000000000;34 Total -100000000000000000000 1150000000
exact,1150000002,1150000001;35 Total 1150000002 1150000000";

// A carriage return at the end of a line belongs to it, and a line is valid UTF-8. A line of 65,536 bytes is judged by its numbers, and a
// longer one by its form.
const LINES: &str = "path,1,2^;2 Form 0 0
l,1,1,0,400000000,80000000!;17 Form 0 0
bound,1*65530;34 Range 0 0
bound,1*65531;34 Form 0 0";

// Texts that stand behind the rows before the one that is refused, or behind all rows.
const WHOLE: &str = ";yes";

const ENDS: &str = "h,1,1;18 Short 0 0
;18 Short 0 0
x;36 Extra 0 0
x|y|;36 Extra 0 0
;1 Short 0 0
l*65537;18 Form 0 0
l*65537;36 Extra 0 0";

// Whole certificates.
const OF_TWO_STORES: &str = "clearance certificate 1|path,2|m,1,1,-250000000,250000001|;3 Sum 1 0";

// The text of a case.
fn text_of(alloc: Global, text: &str) -> Result<Vec<u8>, AllocError> {
    let (front, times) = text.split_once('*').unwrap_or((text, "1"));
    let mut bytes = bytes_of(alloc, front)?;
    let last = bytes.last().copied().unwrap_or(b'1');
    for _ in 1..count(times) {
        bytes.push(last)?;
    }
    Ok(bytes)
}

/// Whether a certificate is answered as it must, in which a text stands alone, in the place of a row or behind it.
pub fn is_text_answered(
    alloc: Global,
    ask: Ask,
    season: &Season,
    case: &str,
) -> Result<bool, AllocError> {
    let (text, want) = case.split_once(';').unwrap_or((case, ""));
    let want = want_of(want);
    let mut text = text_of(alloc, text)?;
    let (kept, from) = match ask {
        Ask::Line => (want.row.saturating_sub(1), want.row),
        Ask::End if want.row > 0 => (want.row.saturating_sub(1), 35),
        Ask::End => (35, 35),
        _ => (0, 35),
    };
    if matches!(ask, Ask::Line) {
        text.push(b'\n')?;
    }
    is_answered(alloc, season, &spliced(alloc, kept, &text, from)?, want)
}

#[test]
fn a_whole_certificate_is_accepted(rt: HostRuntime) -> Result<(), Fail> {
    assert_answers(&rt, rt.alloc(), Ask::End, "adaptive", WHOLE)
}

#[test]
fn a_changed_line_is_refused(rt: HostRuntime) -> Result<(), Fail> {
    assert_answers(&rt, rt.alloc(), Ask::Line, "adaptive", CHANGED)
}

#[test]
fn a_line_is_text_of_at_most_65_536_bytes(rt: HostRuntime) -> Result<(), Fail> {
    assert_answers(&rt, rt.alloc(), Ask::Line, "adaptive", LINES)
}

#[test]
fn a_certificate_ends_with_its_last_line(rt: HostRuntime) -> Result<(), Fail> {
    assert_answers(&rt, rt.alloc(), Ask::End, "adaptive", ENDS)
}

#[test]
fn multipliers_cancel_over_the_stores(rt: HostRuntime) -> Result<(), Fail> {
    assert_answers(&rt, rt.alloc(), Ask::Alone, "two_stores", OF_TWO_STORES)
}

// A name, the length of the shelf's reads, the call that fails, and the answer for three lines that are no certificate. After a fault of
// the certificate the file is read to its end, so a fault of the shelf is told in its place. The calls are the opening, the reads, and the
// read at the end. An answer that is no refusal of a row has the row 0.
const FAULTS: &str = "d 16 9;0 there is no such certificate
d 16 1;0 the certificate could not be read
c 16 1;0 the certificate could not be read
c 1 2;0 the certificate could not be read
c 1 7;0 the certificate could not be read
c 1 8;1 Form 0 0
c 16 3;0 the certificate could not be read";

/// Whether the checker answers as it must over a shelf that fails at a call.
pub fn is_fault_answered(alloc: Global, season: &Season, case: &str) -> Result<bool, AllocError> {
    let (place, want) = case.split_once(';').unwrap_or((case, ""));
    let (name, place) = place.split_once(' ').unwrap_or((place, ""));
    let (piece, call) = place.split_once(' ').unwrap_or((place, ""));
    is_answered_over(
        alloc,
        season,
        name,
        b"a\nb\nc",
        count(piece),
        count(call),
        want_of(want),
    )
}

#[test]
fn what_the_shelf_answers_comes_first(rt: HostRuntime) -> Result<(), Fail> {
    assert_answers(&rt, rt.alloc(), Ask::Fault, "adaptive", FAULTS)
}
