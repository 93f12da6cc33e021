// Made seasons: the files that `run` makes, and the plan of them. The reports were worked with another program, written after
// the definitions alone; the first draws of seed 1 were drawn by hand.
use crate::cases::{
    Answer, Held, NONE_FAILS, asked_of, asked_on_disk, bytes_of, desk_of, is_told, is_told_on_disk,
    numbers_of, run_over,
};
use crate::ending::Status;
use clr_io::{MemoryDesk, MemoryShelf};
use std::alloc::{AllocError, Global};
use std::fs;
use std::rt::Files as RealFiles;
use std::test::Fail;

// A seed, and behind each `=` the beginning of its stock.csv and what is told, in the signs of the cases.
const SEEDS: &str =
    "1=store,units,salvage|s01,53,5.00|s02,57,5.00|s03,45,5.00|=0 season 24 stores 12 weeks 6 rungs base 100|path 3 3 3 3 3 3 3 3 3 3 3 3|prices 45.00 45.00 45.00 45.00 45.00 45.00 45.00 45.00 45.00 45.00 45.00 45.00|revenue 31413.56027583 31413.56027625|best yes|bound 31417.14550870 step 20|gap 3.58523287|
0=store,units,salvage|s01,42,5.00|=0 season 24 stores 12 weeks 6 rungs base 100|path 3 3 3 3 3 3 3 3 3 3 3 4|prices 45.00 45.00 45.00 45.00 45.00 45.00 45.00 45.00 45.00 45.00 45.00 38.00|revenue 31063.95443329 31063.95443366|best yes|bound 31090.50296994 step 20|gap 26.54853665|
999999999=store,units,salvage|s01,31,5.00|=0 season 24 stores 12 weeks 6 rungs base 100|path 3 3 3 3 3 3 3 3 3 3 3 3|prices 45.00 45.00 45.00 45.00 45.00 45.00 45.00 45.00 45.00 45.00 45.00 45.00|revenue 31629.59618777 31629.59618837|best yes|bound 31637.10837666 step 20|gap 7.51218889|";

// What is told of seed 1.
const FIRST: &str =
    "0 season 24 stores 12 weeks 6 rungs base 100|path 3 3 3 3 3 3 3 3 3 3 3 3|prices 45.00 45.00 45.00 45.00 45.00 45.00 45.00 45.00 45.00 45.00 45.00 45.00|revenue 31413.56027583 31413.56027625|best yes|bound 31417.14550870 step 20|gap 3.58523287|";

const NAMES: &str = "out/rules.json
out/ladder.csv
out/stock.csv
out/demand.csv";

// Of a plan in few steps.
const QUICK: &str = "make out --steps 0 --nodes 0";

// The words are done on this desk. Each call on the shelf would fail.
fn made(alloc: Global, words: &str, desk: &mut MemoryDesk) -> Result<Answer, AllocError> {
    let fails = [1, 2, 3, 4].to_vec(alloc)?;
    let mut shelf = MemoryShelf::new(Vec::new(alloc), 1, fails);
    run_over(alloc, words, &mut shelf, desk, NONE_FAILS)
}

// The four files stand on the desk by their names.
fn is_named(desk: &MemoryDesk) -> bool {
    for (index, name) in NAMES.lines().enumerate() {
        if index >= desk.count() || desk.name(index) != name {
            return false;
        }
    }
    desk.count() == 4
}

// The bytes of a file on the desk; of one that isn't there, none.
fn file_of(desk: &MemoryDesk, index: usize) -> &[u8] {
    if index < desk.count() {
        desk.bytes(index)
    } else {
        b""
    }
}

// The names and the bytes of the files on a desk.
fn shown(alloc: Global, desk: &MemoryDesk) -> Result<Vec<u8>, AllocError> {
    let mut text = Vec::new(alloc);
    for index in 0..desk.count() {
        text.extend_from_slice(desk.name(index).as_bytes())?;
        text.push(b' ')?;
        text.extend_from_slice(desk.bytes(index))?;
    }
    Ok(text)
}

// The files that stand on a desk.
fn files_on(alloc: Global, desk: &MemoryDesk) -> Result<Held, AllocError> {
    let mut files = Vec::new(alloc);
    for index in 0..desk.count() {
        let name = String::from_str(alloc, desk.name(index))?;
        files.push((name, desk.bytes(index).to_vec(alloc)?))?;
    }
    Ok(files)
}

// This is told of the making of a season on the desk.
fn is_made_so(
    alloc: Global,
    words: &str,
    desk: &mut MemoryDesk,
    told: &str,
) -> Result<bool, AllocError> {
    Ok(made(alloc, words, desk)?.says(alloc, told)? && is_named(desk))
}

// The season of the seed is made on the desk with this beginning of stock.csv, and its files are planned with the same report.
fn is_made(
    alloc: Global,
    seed: &str,
    desk: &mut MemoryDesk,
    stock: &str,
    told: &str,
) -> Result<bool, AllocError> {
    let words = format!(in alloc; "make out --seed {seed}")?;
    let is_made = is_made_so(alloc, words.as_str(), desk, told)?;
    let is_planned = is_told(alloc, "plan out", files_on(alloc, desk)?, 65_536, 0, told)?;
    Ok(is_made && is_planned && file_of(desk, 2).starts_with(&bytes_of(alloc, stock)?))
}

// The season of a line is made as the line tells.
fn is_line_made(alloc: Global, line: &str) -> Result<bool, AllocError> {
    let (seed, rest) = line.split_once('=').unwrap_or((line, ""));
    let (stock, told) = rest.split_once('=').unwrap_or((rest, ""));
    let mut desk = desk_of(alloc, 4, 100_000, 65_536, 0)?;
    is_made(alloc, seed, &mut desk, stock, told)
}

#[test]
fn seasons_are_made_and_planned(rt: HostRuntime) -> Result<(), Fail> {
    for line in SEEDS.lines() {
        assert!(rt; is_line_made(rt.alloc(), line)?, "{line}");
    }
    Ok(())
}

// What is shown of a season that is made as it is told; nothing where it isn't.
fn shown_so(alloc: Global, words: &str, told: &str) -> Result<Vec<u8>, AllocError> {
    let mut desk = desk_of(alloc, 4, 100_000, 65_536, 0)?;
    if !is_made_so(alloc, words, &mut desk, told)? {
        return Ok(Vec::new(alloc));
    }
    shown(alloc, &desk)
}

// The seed is 1 where none is given, and what is made is the same each time.
fn are_made_again(alloc: Global) -> Result<bool, AllocError> {
    let first = shown_so(alloc, "make out", FIRST)?;
    let again = shown_so(alloc, "make out --seed 1", FIRST)?;
    Ok(!first.is_empty() && first.as_slice() == again.as_slice())
}

#[test]
fn seasons_are_made_again(rt: HostRuntime) -> Result<(), Fail> {
    assert!(rt; are_made_again(rt.alloc())?);
    Ok(())
}

// The room of a desk, its call that fails, the files that stand then, and the bytes of the last where it is demand.csv and the call
// fails; and what is told. Each file takes a call to be made and one to be written, but for demand.csv, which takes two to be written.
// A small room ends in the midst of demand.csv.
const FAULTS: &str = "100000 1 0 0=5 write fault: rules.json
100000 2 1 0=5 write fault: rules.json
100000 3 1 0=5 write fault: ladder.csv
100000 5 2 0=5 write fault: stock.csv
100000 9 4 65536=5 write fault: demand.csv
1000 0 4 0=5 write fault: demand.csv";

// On the desk of a line the making of a season fails as the line tells: what stands there is a front of what stands on a whole desk.
fn is_cut(alloc: Global, whole: &[u8], line: &str) -> Result<bool, AllocError> {
    let (numbers, told) = line.split_once('=').unwrap_or((line, ""));
    let [room, fail, count, bytes] = numbers_of(numbers);
    let mut desk = desk_of(alloc, 4, room, 65_536, fail)?;
    let is_told = made(alloc, QUICK, &mut desk)?.says(alloc, told)?;
    let stands = desk.count() == count && (bytes == 0 || file_of(&desk, 3).len() == bytes);
    Ok(is_told && stands && whole.starts_with(&shown(alloc, &desk)?))
}

// The quick plan's report of a made season, and its files on the desk.
fn is_made_quickly(alloc: Global, desk: &mut MemoryDesk) -> Result<bool, AllocError> {
    let answer = made(alloc, QUICK, desk)?;
    let files = files_on(alloc, desk)?;
    let again = asked_of(alloc, "plan out --steps 0 --nodes 0", files, 65_536, 0)?;
    Ok(again.reports(answer.out.bytes()) && answer.status == Status::Ok && is_named(desk))
}

// What is shown of a season that is made quickly; nothing where it is wrong.
fn shown_quickly(alloc: Global) -> Result<Vec<u8>, AllocError> {
    let mut desk = desk_of(alloc, 4, 100_000, 65_536, 10)?;
    if !is_made_quickly(alloc, &mut desk)? {
        return Ok(Vec::new(alloc));
    }
    shown(alloc, &desk)
}

#[test]
fn desks_fail_while_seasons_are_made(rt: HostRuntime) -> Result<(), Fail> {
    let whole = shown_quickly(rt.alloc())?;
    assert!(rt; !whole.is_empty());
    for line in FAULTS.lines() {
        assert!(rt; is_cut(rt.alloc(), &whole, line)?, "{line}");
    }
    Ok(())
}

// A season is made in a real folder, which is there, and its plan has the same report.
fn is_made_in_folder(rt: &impl RealFiles, alloc: Global) -> Result<bool, AllocError> {
    let answer = asked_on_disk(rt, alloc, "make made --steps 0 --nodes 0")?;
    let again = asked_on_disk(rt, alloc, "plan made --steps 0 --nodes 0")?;
    Ok(answer.status == Status::Ok && again.reports(answer.out.bytes()))
}

// A folder that isn't there takes no files.
fn is_no_folder_told(rt: &impl RealFiles, alloc: Global) -> Result<bool, AllocError> {
    is_told_on_disk(
        rt,
        alloc,
        "make made/no --steps 0 --nodes 0",
        "5 write fault: rules.json",
    )
}

#[test]
fn made_seasons_stand_in_real_folders(rt: HostRuntime) -> Result<(), Fail> {
    fs::create_dir(&rt, "made")?;
    assert!(rt; is_made_in_folder(&rt, rt.alloc())?);
    assert!(rt; is_no_folder_told(&rt, rt.alloc())?);
    Ok(())
}
