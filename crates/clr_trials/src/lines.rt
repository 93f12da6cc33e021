// Files in memory read line by line. The expected answers were written by hand.
ghost use Rattle.std.specs.Prelude.{◌≡◌, ◌≤◌, false};

use crate::cases::{Kind, assert_cases};
use crate::edges::{count, shelf_of};
use crate::tables::{file_of, parts, sides};
use clr_io::{Failed, Line, Lines, Shelf};
use std::alloc::{AllocError, Global};
use std::test::Fail;

fn letter_of(answer: Result<Line, Failed>) -> u8 {
    match answer {
        Ok(Line::Whole) => b'W',
        Ok(Line::Long) => b'L',
        Ok(Line::Rest { long: true }) => b'T',
        Ok(Line::Rest { long: false }) => b'R',
        Ok(Line::Over) => b'O',
        Err(_) => b'F',
    }
}

// The first answers, each as a letter, and behind it the bytes that it gives.
fn answers_of<H: Shelf>(
    lines: &mut Lines,
    shelf: &mut H,
    answers: &mut Vec<u8>,
) -> Result<(), AllocError>
    requires taken { H.taken shelf.old ≡ lines.old.taken }
    requires goes_on { lines.old.ended ≡ false }
{
    for _ in 0..9 {
        let line = lines.next(shelf);
        answers.push(letter_of(line))?;
        match line {
            Ok(Line::Whole) => answers.extend_from_slice(lines.bytes())?,
            Ok(Line::Long) => {}
            Ok(Line::Rest { .. }) => return answers.extend_from_slice(lines.bytes()),
            Ok(Line::Over) | Err(_) => return Ok(()),
        }
    }
    Ok(())
}

// The answers for a file, of which at most so many bytes are given at a time, and where these calls fail.
fn answers(
    alloc: Global,
    bytes: &[u8],
    piece: &str,
    fail: &str,
    longest: u32,
    max: u64,
) -> Result<Vec<u8>, AllocError>
    requires longest { 1 ≤ longest }
    requires max { max ≤ 1000000 }
{
    let mut shelf = shelf_of(alloc, (bytes, 1), count(piece), fail)?;
    let mut found = Vec::new(alloc);
    let mut lines = Lines::new(alloc, longest, max)?;
    if shelf.open("long").is_err() {
        return Ok(found);
    }
    answers_of(&mut lines, &mut shelf, &mut found)?;
    Ok(found)
}

// A number, the longest line and the most bytes that there may be, a text, and its answers. In both `$` stands for so many bytes `x`.
const TEXTS: &str = "0 3 0=>R
0 3 1 |=>WR
0 3 9 ab=>Rab
0 3 3 ab|=>WabR
0 3 10 abc|abcd|x=>WabcLRx
0 3 9 ||abc=>WWRabc
0 3 9 |abcd=>WT
0 3 9 abcdefg||=>LWR
0 3 9 a^|=>Wa^R
0 3 5 abcdef=>O
0 20 99 abcdefghijklmnopqrstuvwxyz|ab|=>LWabR
0 26 99 abcdefghijklmnopqrstuvwxyz|ab|=>WabcdefghijklmnopqrstuvwxyzWabR
65536 65536 1000000 $|ab|=>W$WabR
65537 65536 1000000 $|ab|=>LWabR
140000 65536 1000000 $|ab|=>LWabR";

fn is_answered(alloc: Global, piece: &str, fail: &str, case: &str) -> Result<bool, AllocError> {
    let (asked, want) = sides(case);
    let (long, rest) = parts(asked);
    let (longest, rest) = parts(rest);
    let (max, text) = parts(rest);
    let long = "x".repeat(alloc, count(long))?;
    let text = file_of(alloc, text, &long)?;
    let longest = longest.parse::<u32>().unwrap_or(1).max(1);
    let max = max.parse::<u64>().unwrap_or(0).min(1_000_000);
    let found = answers(alloc, &text, piece, fail, longest, max)?;
    Ok(found.as_slice() == file_of(alloc, want, &long)?.as_slice())
}

pub(crate) fn is_read_by_each(alloc: Global, case: &str) -> Result<bool, AllocError> {
    for piece in ["1", "16", "1000", "65536"] {
        if !is_answered(alloc, piece, "-", case)? {
            return Ok(false);
        }
    }
    Ok(true)
}

#[test]
fn lines_do_not_depend_on_the_reads(rt: HostRuntime) -> Result<(), Fail> {
    assert_cases(&rt, rt.alloc(), Kind::Lines, TEXTS)
}

// How many bytes are given at a time, the call that fails, and a case as above. The calls on the shelf are the opening, the reads, and
// the read at the end.
const FAULTS: &str = "1 2 0 3 9 a|b=>F
1 4 0 3 9 a|b=>WaF
1 5 0 3 9 a|b=>WaF
1 6 0 3 9 a|b=>WaRb
16 2 0 3 9 a|b=>F
16 3 0 3 9 a|b=>WaF
16 4 0 3 9 a|b=>WaRb";

pub(crate) fn is_fault(alloc: Global, case: &str) -> Result<bool, AllocError> {
    let (piece, rest) = parts(case);
    let (call, case) = parts(rest);
    is_answered(alloc, piece, call, case)
}

#[test]
fn a_fault_ends_the_lines(rt: HostRuntime) -> Result<(), Fail> {
    assert_cases(&rt, rt.alloc(), Kind::Fault, FAULTS)
}
