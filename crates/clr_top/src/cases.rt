// What the worked cases share: seasons and cases as texts, and what a run answers to them.
//
// A season is a text with a file a line: its name, a space, and its bytes, in which `|` stands for a line feed, `^` for a carriage
// return, `~` for a tab, `@` for a byte order mark, and `%` for a byte 0xFF. Where `<# 1 24 ROWS>` stands, the rows stand once for each
// number from 1 to 24, with the number in the place of `#`; so with other signs and numbers, and one such within another.
//
// A case is a text of such lines, whose files stand in the place of the season's. A line `- NAME` takes a file away, a line `> WORDS`
// tells the words of the command, which are `plan f` where there is none, and a line `# ..` is a remark. The last line `= NUMBER ..`
// tells the exit status, and behind it the report in the signs above, or for a status other than 0 the note. Of a report that
// begins with `..` the front is left out. In a table the cases are parted by empty lines. Where a table has several seasons, each stands
// before its cases, and two empty lines stand before a season.
use crate::ending::Status;
use crate::program::run;
use clr_io::{Desk, FileDesk, FileShelf, MemoryDesk, MemoryShelf, MemorySink, Shelf};
use std::alloc::{AllocError, Global};
use std::fs;
use std::rt::Files as RealFiles;
use std::test::Fail;

pub(crate) const SMALLEST: &str = r#"rules.json {"weeks":1,"base":4}
calendar.csv
ladder.csv rung,price|1,10.00|
stock.csv store,units,salvage|a,1,2.00|
demand.csv store,week,rung,units,weight|a,1,1,0,1|a,1,1,1,3|"#;

pub(crate) const SMALLEST_REPORT: &str =
    "season 1 stores 1 weeks 1 rungs base 4|path 1|prices 10.00|revenue 8.00000000 8.00000000|best yes|bound 8.00000000 step 0|gap 0.00000000|exact 8.00000000 8.00000000 first 1|";

// One store, two weeks, two rungs: on the first rung nothing or one unit is asked for in each week.
pub(crate) const TWO_WEEKS: &str = r#"rules.json {"weeks":2,"base":2}
calendar.csv
ladder.csv rung,price|1,10.00|2,4.00|
stock.csv store,units,salvage|a,2,0|
demand.csv store,week,rung,units,weight|a,1,1,0,1|a,1,1,1,1|a,2,1,0,1|a,2,1,1,1|a,1,2,0,2|a,2,2,2,2|"#;

// ---- texts

// What a sign stands for; nothing where it stands for itself.
fn bytes_behind(sign: u8) -> &'static [u8] {
    match sign {
        b'|' => b"\n",
        b'^' => b"\r",
        b'~' => b"\t",
        b'@' => b"\xEF\xBB\xBF",
        b'%' => b"\xFF",
        _ => b"",
    }
}

// The bytes that a text stands for.
pub(crate) fn bytes_of(alloc: Global, text: &str) -> Result<Vec<u8>, AllocError> {
    let mut bytes = Vec::new(alloc);
    for sign in text.as_bytes() {
        let behind = bytes_behind(*sign);
        if behind.is_empty() {
            bytes.push(*sign)?;
        } else {
            bytes.extend_from_slice(behind)?;
        }
    }
    Ok(bytes)
}

// Puts the rows of a repeat behind a text.
fn put_repeat(alloc: Global, text: &mut String, repeat: &str) -> Result<(), AllocError> {
    let (sign, numbers) = repeat.split_once(' ').unwrap_or((repeat, ""));
    let (first, numbers) = numbers.split_once(' ').unwrap_or((numbers, ""));
    let (last, rows) = numbers.split_once(' ').unwrap_or((numbers, ""));
    for number in number_of(first)..=number_of(last) {
        let number = format!(in alloc; "{number}")?;
        text.push_str(rows.replace(alloc, sign, number.as_str())?.as_str())?;
    }
    Ok(())
}

// The text with the rows of its last repeat, in which no other stands.
fn repeated(alloc: Global, text: &str) -> Result<String, AllocError> {
    let (front, rest) = text.rsplit_once('<').unwrap_or((text, ""));
    let (repeat, back) = rest.split_once('>').unwrap_or(("", rest));
    let mut whole = String::from_str(alloc, front)?;
    put_repeat(alloc, &mut whole, repeat)?;
    whole.push_str(back)?;
    Ok(whole)
}

// The bytes that a text with repeats stands for.
fn bytes_repeated(alloc: Global, text: &str) -> Result<Vec<u8>, AllocError> {
    let mut whole = String::from_str(alloc, text)?;
    for sign in text.as_bytes() {
        if *sign == b'<' {
            whole = repeated(alloc, whole.as_str())?;
        }
    }
    bytes_of(alloc, whole.as_str())
}

// The number that a text tells.
pub(crate) fn number_of(text: &str) -> u64 {
    text.parse::<u64>().unwrap_or(0)
}

// The numbers of a text with blanks between them, and zeros.
pub(crate) fn numbers_of(text: &str) -> [usize; 4] {
    let mut numbers = [0; 4];
    for (number, word) in numbers.iter_mut().zip(text.split(' ')) {
        *number = word.parse::<usize>().unwrap_or(0);
    }
    numbers
}

// ---- files

// Files by their paths.
pub(crate) type Held = Vec<(String, Vec<u8>)>;

// Puts a file into a folder.
pub(crate) fn put_file(
    alloc: Global,
    files: &mut Held,
    folder: &str,
    name: &str,
    bytes: Vec<u8>,
) -> Result<(), AllocError> {
    files.push((format!(in alloc; "{folder}/{name}")?, bytes))?;
    Ok(())
}

// The name of a line's file and the text of its bytes.
fn file_of(line: &str) -> (&str, &str) {
    line.split_once(' ').unwrap_or((line, ""))
}

// A line is a file, and none of the other lines of a case or a season.
fn is_file(line: &str) -> bool {
    !matches!(
        line.as_bytes().first(),
        None | Some(b'-' | b'>' | b'=' | b'#')
    )
}

// A case replaces the file of this name, or takes it away.
fn is_replaced(case: &str, name: &str) -> bool {
    for line in case.lines() {
        let line = line.strip_prefix("- ").unwrap_or(line);
        if file_of(line).0 == name {
            return true;
        }
    }
    false
}

// Puts the files of the lines into a folder, but for those that a case replaces.
fn put_files(
    alloc: Global,
    files: &mut Held,
    folder: &str,
    lines: &str,
    case: &str,
) -> Result<(), AllocError> {
    for line in lines.lines() {
        let (name, text) = file_of(line);
        if is_file(line) && !is_replaced(case, name) {
            put_file(alloc, files, folder, name, bytes_repeated(alloc, text)?)?;
        }
    }
    Ok(())
}

// The files of a case over a season, in a folder.
pub(crate) fn held(
    alloc: Global,
    folder: &str,
    season: &str,
    case: &str,
) -> Result<Held, AllocError> {
    let mut files = Vec::new(alloc);
    put_files(alloc, &mut files, folder, case, "")?;
    put_files(alloc, &mut files, folder, season, case)?;
    Ok(files)
}

// ---- answers

// What a run answered, and what stands on its sinks.
#[derive(Drop)]
pub(crate) struct Answer {
    pub status: Status,
    pub out: MemorySink,
    pub note: MemorySink,
}

impl Answer {
    // The report stands whole, and no note.
    pub(crate) fn reports(&self, report: &[u8]) -> bool {
        self.status == Status::Ok && self.out.bytes() == report && self.note.bytes().is_empty()
    }

    // The report ends with these lines, and no note stands.
    fn ends_with(&self, lines: &[u8]) -> bool {
        self.status == Status::Ok
            && self.out.bytes().ends_with(lines)
            && self.note.bytes().is_empty()
    }

    // Of the report a front of so many bytes stands, and the note of the fault.
    pub(crate) fn breaks_off(&self, report: &[u8], count: usize) -> bool {
        self.status == Status::WriteFault
            && self.out.bytes().len() == count
            && report.starts_with(self.out.bytes())
            && self.note.bytes() == b"write fault: report\n".as_slice()
    }

    // The note stands, and nothing else.
    fn notes(&self, note: &str) -> bool {
        let line = self.note.bytes();
        self.out.bytes().is_empty()
            && line.ends_with(b"\n")
            && line.starts_with(note.as_bytes())
            && line.len() == note.len().saturating_add(1)
    }

    // The status has this number.
    fn has_number(&self, number: &str) -> bool {
        match number.parse::<u8>() {
            Ok(number) => self.status.number() == number,
            Err(_) => false,
        }
    }

    // The run answered with this number and this report or note, and nothing else.
    pub(crate) fn says(&self, alloc: Global, told: &str) -> Result<bool, AllocError> {
        let (number, text) = file_of(told);
        if number != "0" {
            return Ok(self.has_number(number) && self.notes(text));
        }
        match text.strip_prefix("..") {
            Some(lines) => Ok(self.ends_with(&bytes_of(alloc, lines)?)),
            None => Ok(self.reports(&bytes_of(alloc, text)?)),
        }
    }
}

// ---- runs

// The calls that fail on the sinks, counted from 1; none for 0.
#[derive(Clone, Copy)]
pub(crate) struct Failing {
    pub report: u64,
    pub note: u64,
}

pub(crate) const NONE_FAILS: Failing = Failing { report: 0, note: 0 };

// A desk for so many files, with this room, that takes so many bytes a call, and whose call of a number fails.
pub(crate) fn desk_of(
    alloc: Global,
    files: usize,
    room: usize,
    piece: usize,
    fail: usize,
) -> Result<MemoryDesk, AllocError> {
    let fails = [fail as u64].to_vec(alloc)?;
    MemoryDesk::new(alloc, files, room, piece.max(1), fails)
}

// The words of a text.
fn words_of(alloc: Global, text: &str) -> Result<Vec<String>, AllocError> {
    let mut words = Vec::new(alloc);
    for word in text.split_whitespace() {
        words.push(String::from_str(alloc, word)?)?;
    }
    Ok(words)
}

// The contract of `run` is long, so the tests call it here alone.
fn ran<H: Shelf, D: Desk>(
    alloc: Global,
    words: &[String],
    shelf: &mut H,
    desk: &mut D,
    out: &mut MemorySink,
    note: &mut MemorySink,
) -> Status {
    run(alloc, words, shelf, desk, out, note)
}

// What the words ask of a shelf and a desk.
pub(crate) fn run_over<H: Shelf, D: Desk>(
    alloc: Global,
    words: &str,
    shelf: &mut H,
    desk: &mut D,
    failing: Failing,
) -> Result<Answer, AllocError> {
    let words = words_of(alloc, words)?;
    let mut out = MemorySink::new(alloc, 4096, 16, [failing.report].to_vec(alloc)?)?;
    let mut note = MemorySink::new(alloc, 256, 7, [failing.note].to_vec(alloc)?)?;
    let status = ran(alloc, &words, shelf, desk, &mut out, &mut note);
    Ok(Answer { status, out, note })
}

// What the words ask of a shelf, over a desk that takes no file.
pub(crate) fn run_on<H: Shelf>(
    alloc: Global,
    words: &str,
    shelf: &mut H,
    failing: Failing,
) -> Result<Answer, AllocError> {
    let mut desk = MemoryDesk::new(alloc, 0, 0, 1, Vec::new(alloc))?;
    run_over(alloc, words, shelf, &mut desk, failing)
}

// What the words ask of files in memory, which are read in pieces of so many bytes, and where the call of a number fails.
pub(crate) fn asked_of(
    alloc: Global,
    words: &str,
    files: Held,
    piece: usize,
    fail: u64,
) -> Result<Answer, AllocError> {
    let mut shelf = MemoryShelf::new(files, piece.max(1), [fail].to_vec(alloc)?);
    run_on(alloc, words, &mut shelf, NONE_FAILS)
}

// This is told of what the words ask of such files.
pub(crate) fn is_told(
    alloc: Global,
    words: &str,
    files: Held,
    piece: usize,
    fail: u64,
    told: &str,
) -> Result<bool, AllocError> {
    asked_of(alloc, words, files, piece, fail)?.says(alloc, told)
}

// The last line of a text that begins with this sign, without it.
pub(crate) fn line_of<'a>(text: &'a str, sign: &str) -> Option<&'a str> {
    let mut last = None;
    for line in text.lines() {
        if let Some(rest) = line.strip_prefix(sign) {
            last = Some(rest);
        }
    }
    last
}

// What a case tells of its run.
fn told_of(case: &str) -> &str {
    line_of(case, "= ").unwrap_or("")
}

// The case over a season in memory is answered as it tells.
fn is_answered(alloc: Global, season: &str, case: &str) -> Result<bool, AllocError> {
    let words = line_of(case, ">").unwrap_or("plan f");
    for piece in [1, 16] {
        let files = held(alloc, "f", season, case)?;
        if !is_told(alloc, words, files, piece, 0, told_of(case))? {
            return Ok(false);
        }
    }
    Ok(true)
}

// The first case of a table over a season in memory that isn't answered as it tells.
pub(crate) fn unanswered<'a>(
    alloc: Global,
    season: &str,
    table: &'a str,
) -> Result<Option<&'a str>, AllocError> {
    for case in table.split("\n\n") {
        if !is_answered(alloc, season, case)? {
            return Ok(Some(case));
        }
    }
    Ok(None)
}

// What the words ask of real folders.
pub(crate) fn asked_on_disk(
    rt: &impl RealFiles,
    alloc: Global,
    words: &str,
) -> Result<Answer, AllocError> {
    let mut shelf = FileShelf::new(rt);
    let mut desk = FileDesk::new(rt);
    run_over(alloc, words, &mut shelf, &mut desk, NONE_FAILS)
}

// Writes the files into a real folder, which is there.
pub(crate) fn write_files(rt: &impl RealFiles, files: &[(String, Vec<u8>)]) -> Result<(), Fail> {
    for (path, bytes) in files {
        fs::write(rt, path.as_str(), bytes.as_slice())?;
    }
    Ok(())
}

// This is told of what the words ask of real folders.
pub(crate) fn is_told_on_disk(
    rt: &impl RealFiles,
    alloc: Global,
    words: &str,
    told: &str,
) -> Result<bool, AllocError> {
    asked_on_disk(rt, alloc, words)?.says(alloc, told)
}

// The words of a line are answered in real folders as it tells behind `=`.
pub(crate) fn is_line_told(
    rt: &impl RealFiles,
    alloc: Global,
    line: &str,
) -> Result<bool, AllocError> {
    let (words, told) = line.split_once('=').unwrap_or((line, ""));
    is_told_on_disk(rt, alloc, words, told)
}

// The plan of the case's files over a season in a real folder, which is there, is answered as the case tells.
pub(crate) fn is_answered_on_disk(
    rt: &impl RealFiles,
    alloc: Global,
    folder: &str,
    season: &str,
    case: &str,
) -> Result<bool, Fail> {
    write_files(rt, &held(alloc, folder, season, case)?)?;
    let words = format!(in alloc; "plan {folder}")?;
    Ok(is_told_on_disk(rt, alloc, words.as_str(), told_of(case))?)
}

// The case over the smallest season is answered as it tells over the memory and over a real folder, which is there.
fn is_answered_twice(
    rt: &impl RealFiles,
    alloc: Global,
    folder: &str,
    case: &str,
) -> Result<bool, Fail> {
    let in_memory = is_answered(alloc, SMALLEST, case)?;
    let on_disk = is_answered_on_disk(rt, alloc, folder, SMALLEST, case)?;
    Ok(in_memory && on_disk)
}

// The first case of a table that isn't answered so twice, in a new folder.
pub(crate) fn unanswered_twice<'a>(
    rt: &impl RealFiles,
    alloc: Global,
    folder: &str,
    table: &'a str,
) -> Result<Option<&'a str>, Fail> {
    fs::create_dir(rt, folder)?;
    for case in table.split("\n\n") {
        if !is_answered_twice(rt, alloc, folder, case)? {
            return Ok(Some(case));
        }
    }
    Ok(None)
}
