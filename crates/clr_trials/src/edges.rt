// Runs of the objects in memory, with ample memory. The expected answers were counted by hand.
//
// In a case the numbers of the calls that are to fail stand one behind another, and `-` where none is.
use crate::cases::{Kind, assert_cases};
use crate::tables::{parts, sides};
use clr_io::{
    Desk, Failed, MemoryDesk, MemoryShelf, MemorySink, ReadError, Shelf, Sink, read_whole,
    write_whole,
};
use std::alloc::{AllocError, Global};
use std::test::Fail;

// The numbers that stand in a text with blanks between them.
fn list_of(alloc: Global, text: &str) -> Result<Vec<u64>, AllocError> {
    let mut list = Vec::new(alloc);
    for word in text.split(' ') {
        if let Ok(number) = word.parse::<u64>() {
            list.push(number)?;
        }
    }
    Ok(list)
}

/// A number of bytes.
pub(crate) fn count(text: &str) -> usize {
    text.parse::<usize>().unwrap_or(0)
}

// A file whose bytes are these so many times.
fn file(
    alloc: Global,
    name: &str,
    bytes: &[u8],
    times: usize,
) -> Result<(String, Vec<u8>), AllocError> {
    let name = String::from_str(alloc, name)?;
    Ok((name, bytes.repeat(alloc, times)?))
}

/// A shelf of an empty file, one of three bytes, and one whose bytes are these so many times.
pub(crate) fn shelf_of(
    alloc: Global,
    long: (&[u8], usize),
    piece: usize,
    fail: &str,
) -> Result<MemoryShelf, AllocError> {
    let mut files = Vec::new(alloc);
    files.push(file(alloc, "empty", b"", 0)?)?;
    files.push(file(alloc, "three", b"abc", 1)?)?;
    files.push(file(alloc, "long", long.0, long.1)?)?;
    Ok(MemoryShelf::new(files, piece.max(1), list_of(alloc, fail)?))
}

// Files that are read whole, with the most bytes that a read gives and that a file may have, and the calls that fail; and how many
// bytes are found, and the first three. With pieces of one byte the calls on "three" are: open, three reads, and the read at its end.
const WHOLE: &str = r#"three 1 3 -=>Ok((3, "abc"))
three 2 3 -=>Ok((3, "abc"))
three 9 3 -=>Ok((3, "abc"))
three 1 18446744073709551615 0 6=>Ok((3, "abc"))
empty 1 0 -=>Ok((0, ""))
three 1 2 -=>Err(TooLong { max: 2 })
three 9 0 -=>Err(TooLong { max: 0 })
three 1 2 5=>Err(TooLong { max: 2 })
four 1 3 -=>Err(Absent)
 1 3 -=>Err(Absent)
threes 1 3 2=>Err(Absent)
four 1 3 1=>Err(Failed)
three 1 3 1=>Err(Failed)
three 1 3 2=>Err(Failed)
three 1 3 9 3=>Err(Failed)
three 1 3 4=>Err(Failed)
three 1 3 5=>Err(Failed)"#;

// A shelf without pieces of its own gives what is asked for, so the number of its calls shows how long the buffer is: open, one read
// for each buffer begun, and the read at the end. Behind the star stands how many bytes the file has.
const BUFFERS: &str = r#"long*65536 18446744073709551615 131072 3=>Err(Failed)
long*65536 18446744073709551615 131072 4=>Ok((65536, "777"))
long*65537 18446744073709551615 131072 4=>Err(Failed)
long*65537 18446744073709551615 131072 5=>Ok((65537, "777"))
long*131072 18446744073709551615 131072 4=>Err(Failed)
long*131073 18446744073709551615 131072 9=>Err(TooLong { max: 131072 })"#;

// How many bytes a file has, and the first three.
fn head(bytes: &[u8]) -> (usize, &str) {
    let first = &bytes[..bytes.len().min(3)];
    (bytes.len(), str::from_utf8(first).unwrap_or("none"))
}

fn shown(alloc: Global, found: Result<Vec<u8>, ReadError>) -> Result<String, AllocError> {
    let found = match &found {
        Ok(bytes) => Ok(head(bytes)),
        Err(error) => Err(*error),
    };
    format!(in alloc; "{found:?}")
}

pub(crate) fn is_whole(alloc: Global, case: &str) -> Result<bool, AllocError> {
    let (asked, want) = sides(case);
    let (name, rest) = parts(asked);
    let (piece, rest) = parts(rest);
    let (max, fail) = parts(rest);
    let (name, long) = name.split_once('*').unwrap_or((name, "0"));
    let mut shelf = shelf_of(alloc, (b"7", count(long)), count(piece), fail)?;
    let max = max.parse::<u64>().unwrap_or(0);
    let found = read_whole(alloc, &mut shelf, name, max);
    Ok(shown(alloc, found)?.as_str() == want)
}

#[test]
fn whole_files_are_read(rt: HostRuntime) -> Result<(), Fail> {
    assert_cases(&rt, rt.alloc(), Kind::File, WHOLE)?;
    assert_cases(&rt, rt.alloc(), Kind::File, BUFFERS)
}

// An answer as one sign: the number of bytes, or F for a fault.
fn sign_of(answer: Result<usize, Failed>) -> u8 {
    match answer {
        Ok(count) if count < 10 => b'0' + count as u8,
        Ok(_) => b'?',
        Err(_) => b'F',
    }
}

// What a step on a shelf answers: `read` reads into this buffer, `none` into one of no bytes, and any other opens the file of that
// name, with 1 for a held one.
fn read_answer<H: Shelf>(shelf: &mut H, buf: &mut [u8], step: &str) -> Result<usize, Failed> {
    if step == "read" {
        return shelf.read(buf);
    }
    if step == "none" {
        return shelf.read(&mut []);
    }
    Ok(usize::from(shelf.open(step)?))
}

// What these steps answer; `buf` shows what stands in the buffer.
fn read_signs<H: Shelf>(
    alloc: Global,
    shelf: &mut H,
    buf: &mut [u8],
    steps: &str,
) -> Result<Vec<u8>, AllocError> {
    let mut signs = Vec::new(alloc);
    for step in steps.split(' ') {
        if step == "buf" {
            signs.extend_from_slice(buf)?;
        } else {
            signs.push(sign_of(read_answer(shelf, buf, step)))?;
        }
    }
    Ok(signs)
}

// A call that fails, steps on a shelf that gives one byte at a time, and what they answer.
const READS: &str = "1 three read read read read=>F0000
2 three read read read read=>1F111
3 three read read read read=>11F11
4 three read read read read=>111F1
5 three read read read read=>1111F
6 three read read read read=>11110
1 four read read read read=>F0000
2 four read read read read=>0F000";

// The same over a shelf that gives nine bytes at a time, with a buffer of two: it reads the file that is open.
const OPENED: &str =
    "- read three read buf none read buf read three four read three read buf=>012ab01cb010012ab";

pub(crate) fn is_shelf(
    alloc: Global,
    case: &str,
    piece: usize,
    buf: &mut [u8],
) -> Result<bool, AllocError> {
    let (asked, want) = sides(case);
    let (fail, steps) = parts(asked);
    let mut shelf = shelf_of(alloc, (b"", 0), piece, fail)?;
    Ok(read_signs(alloc, &mut shelf, buf, steps)?.as_slice() == want.as_bytes())
}

#[test]
fn a_shelf_fails_at_the_listed_calls(rt: HostRuntime) -> Result<(), Fail> {
    assert!(rt; is_shelf(rt.alloc(), OPENED, 9, &mut [0; 2])?);
    assert_cases(&rt, rt.alloc(), Kind::Shelf, READS)
}

// What the writes of these pieces answer, which stand with a comma between them.
fn write_signs<K: Sink>(alloc: Global, sink: &mut K, pieces: &str) -> Result<Vec<u8>, AllocError> {
    let mut signs = Vec::new(alloc);
    for piece in pieces.split(',') {
        signs.push(sign_of(sink.write(piece.as_bytes())))?;
    }
    Ok(signs)
}

// A call that fails, what the writes of some pieces answer, and the bytes that are kept. There is room for five bytes, three at a time.
const PIECES: &str = "1=>F01310 dxyzq
2=>3F11F0 abcdx
3=>30F2F0 abcxy
4=>301F10 abcdq
5=>3011F0 abcdx
6=>3011FF abcdx
7=>3011F0 abcdx";

pub(crate) fn is_sink(alloc: Global, case: &str) -> Result<bool, AllocError> {
    let (fail, want) = sides(case);
    let (want, bytes) = parts(want);
    let mut sink = MemorySink::new(alloc, 5, 3, list_of(alloc, fail)?)?;
    let signs = write_signs(alloc, &mut sink, "abcd,,d,xyz,q,")?;
    Ok(signs.as_slice() == want.as_bytes() && sink.bytes() == bytes.as_bytes())
}

// A text, the room of a sink, the calls that fail, how the whole text is written, two bytes at a time, and what is kept of it.
const TEXTS: &str = "hello 5 -=>Ok hello
hello 9 4=>Ok hello
 0 1=>Ok
hello! 5 -=>Failed hello
hello 0 -=>Failed
hello 5 1=>Failed
hello 5 3=>Failed hell";

pub(crate) fn is_written(alloc: Global, case: &str) -> Result<bool, AllocError> {
    let (asked, want) = sides(case);
    let (text, rest) = parts(asked);
    let (room, fail) = parts(rest);
    let (want, bytes) = parts(want);
    let mut sink = MemorySink::new(alloc, count(room), 2, list_of(alloc, fail)?)?;
    let answer = match write_whole(&mut sink, text.as_bytes()) {
        Ok(()) => "Ok",
        Err(_) => "Failed",
    };
    Ok(answer == want && sink.bytes() == bytes.as_bytes())
}

#[test]
fn a_sink_fails_at_the_listed_calls(rt: HostRuntime) -> Result<(), Fail> {
    assert_cases(&rt, rt.alloc(), Kind::Sink, PIECES)?;
    assert_cases(&rt, rt.alloc(), Kind::Text, TEXTS)
}

// Writes the files of a desk behind a text, as "name=bytes;" each.
fn show(desk: &MemoryDesk, text: &mut Vec<u8>) -> Result<(), AllocError> {
    for i in 0..desk.count() {
        text.extend_from_slice(desk.name(i).as_bytes())?;
        text.push(b'=')?;
        text.extend_from_slice(desk.bytes(i))?;
        text.push(b';')?;
    }
    Ok(())
}

// What a step on a desk answers: one that begins with `+` makes a file, with 0 for one that was made, and any other is written.
fn step_answer<D: Desk>(desk: &mut D, step: &str) -> Result<usize, Failed> {
    match step.strip_prefix('+') {
        Some(name) => desk.create(name).map(|_| 0),
        None => desk.write(step.as_bytes()),
    }
}

// What these steps answer, which stand with a comma between them.
fn step_signs<D: Desk>(alloc: Global, desk: &mut D, steps: &str) -> Result<Vec<u8>, AllocError> {
    let mut signs = Vec::new(alloc);
    for step in steps.split(',') {
        signs.push(sign_of(step_answer(desk, step)))?;
    }
    Ok(signs)
}

/// Steps on a desk, and for each call that fails what they answer, and the files that are kept. There is room for two files and four
/// bytes, three at a time.
pub(crate) const STEPS: &str = "early,+one,abcd,+two,xyz,y,,+three";

const FILES: &str = "1=>F0301F0F one=abc;two=x;
2=>5F403100 two=xyzy;three=;
3=>50F0310F one=;two=xyzy;
4=>503F1F00 one=abcx;three=;
5=>5030F10F one=abc;two=y;
6=>50301F0F one=abc;two=x;
7=>50301FFF one=abc;two=x;
8=>50301F0F one=abc;two=x;
9=>50301F0F one=abc;two=x;";

/// Whether steps on a desk answer as a case says, with room for so many files and bytes, and so many bytes at a time.
pub(crate) fn is_desk(
    alloc: Global,
    case: &str,
    steps: &str,
    room: [usize; 3],
) -> Result<bool, AllocError> {
    let (fail, want) = sides(case);
    let [files, bytes, piece] = room;
    let mut desk = MemoryDesk::new(alloc, files, bytes, piece.max(1), list_of(alloc, fail)?)?;
    let mut answer = step_signs(alloc, &mut desk, steps)?;
    answer.push(b' ')?;
    show(&desk, &mut answer)?;
    Ok(answer.as_slice() == want.as_bytes())
}

// Names of 256 bytes, of 255 and of none, on a desk with room for one file.
fn has_long_names(alloc: Global) -> Result<bool, AllocError> {
    let name = "n".repeat(alloc, 255)?;
    let steps = format!(in alloc; "+{name}n,+{name},+")?;
    let case = format!(in alloc; "-=>F0F {name}=;")?;
    is_desk(alloc, &case, &steps, [1, 0, 1])
}

#[test]
fn a_desk_fails_at_the_listed_calls(rt: HostRuntime) -> Result<(), Fail> {
    assert!(rt; has_long_names(rt.alloc())?);
    assert_cases(&rt, rt.alloc(), Kind::Desk, FILES)
}
