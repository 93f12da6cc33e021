// Certificates that a run writes to a desk.
use crate::cases::{
    Answer, Failing, Held, NONE_FAILS, TWO_WEEKS, bytes_of, desk_of, held, is_line_told, line_of,
    numbers_of, run_over, write_files,
};
use crate::ending::Status;
use clr_io::{MemoryDesk, MemoryShelf};
use std::alloc::{AllocError, Global};
use std::fs;
use std::rt::Files as RealFiles;
use std::test::Fail;

// The worked certificate.
pub(crate) const CERTIFICATE: &str =
    "certificate.csv clearance certificate 1|path,1,2|m,1,1,0|m,1,2,0|m,2,1,0|m,2,2,0|l,2,1,0,0,0|h,2,1,0,0,0|v,2,1,1,0,1,0,0,0|v,2,1,2,1,1,0,0,0|j,2,1,0,1,0,0,0,0|j,2,1,0,1,1,0,0,0|j,2,1,0,1,2,0,0,0|j,2,2,1,1,0,0,0,0|j,2,2,1,1,1,0,0,0|j,2,2,1,1,2,0,0,0|l,1,1,0,400000000,800000000|h,1,1,0,400000000,800000000|v,1,1,1,0,1,0,500000000,800000000|v,1,1,2,1,1,0,400000000,800000000|j,1,1,0,1,0,1,0,0|j,1,1,0,1,1,1,500000000,500000000|j,1,1,0,1,2,2,800000000,800000000|j,1,2,1,1,0,2,0,0|j,1,2,1,1,1,2,400000000,400000000|j,1,2,1,1,2,2,800000000,800000000|l,0,1,0,700000000,1100000000|h,0,1,0,700000000,1100000000|v,0,1,1,0,1,0,750000000,1150000000|j,0,1,0,1,0,1,0,0|j,0,1,0,1,1,1,750000000,750000000|j,0,1,0,1,2,1,1150000000,1150000000|revenue,1100000000,1100000000|bound,1150000000|exact,1150000000,1150000000|";

// Its first line, and those that stand in its place in version 3.
const HEAD: &str = "clearance certificate 1";

const LONG_HEAD: &str = "clearance certificate 2|lengths,36,1,2,2";

const REPORT: &str =
    "season 1 stores 2 weeks 2 rungs base 2|path 1 2|prices 10.00 4.00|revenue 11.00000000 11.00000000|best yes|bound 11.50000000 step 0|gap 0.50000000|exact 11.50000000 11.50000000 first 1|";

// The files of the same season in version 3.
pub(crate) const VERSION_3: &str = r#"rules.json {"version":3,"weeks":2,"base":2}
stock.csv store,units,salvage,relabel|a,2,0,0|"#;

// One week: on the first rung one store sells its unit and the other none, on the second both sell.
pub(crate) const TWO_STORES: &str = r#"rules.json {"weeks":1,"base":2}
ladder.csv rung,price|1,10.00|2,6.00|
stock.csv store,units,salvage|a,1,0|b,1,0|
demand.csv store,week,rung,units,weight|a,1,1,1,2|a,1,2,1,2|b,1,1,0,2|b,1,2,1,2|"#;

// Its certificate behind two steps: the first store is paid 2.50 for the second rung, and the other as much for the first.
pub(crate) const STEPPED: &str =
    "certificate.csv clearance certificate 1|path,2|m,1,1,-250000000,250000000|m,1,2,250000000,-250000000|l,1,1,0,0|l,1,2,0,0|h,1,1,0,0|h,1,2,0,0|v,1,1,1,0,1,0,0|v,1,1,2,1,1,0,0|v,1,2,1,0,1,0,0|v,1,2,2,1,1,0,0|j,1,1,0,1,0,0,0,0,0|j,1,1,0,1,0,1,0,0,0|j,1,1,0,1,1,0,0,0,0|j,1,1,0,1,1,1,0,0,0|j,1,2,1,1,0,0,0,0,0|j,1,2,1,1,0,1,0,0,0|j,1,2,1,1,1,0,0,0,0|j,1,2,1,1,1,1,0,0,0|l,0,1,0,600000000|l,0,2,0,600000000|h,0,1,0,600000000|h,0,2,0,600000000|v,0,1,1,0,1,250000000,850000000|v,0,2,1,0,1,250000000,350000000|j,0,1,0,1,0,0,1,0,0|j,0,1,0,1,0,1,2,600000000,600000000|j,0,1,0,1,1,0,1,1000000000,1000000000|j,0,1,0,1,1,1,2,1200000000,1200000000|revenue,1200000000,1200000000|bound,1200000000|exact,1200000000,1200000000|";

// The files that differ in the season of a certificate with these first lines.
fn files_behind(head: &str) -> &'static str {
    if head.starts_with("clearance certificate 2") {
        VERSION_3
    } else {
        ""
    }
}

// The text of the certificate with these first lines.
fn text_behind(alloc: Global, head: &str) -> Result<Vec<u8>, AllocError> {
    let line = CERTIFICATE.replace(alloc, HEAD, head)?;
    bytes_of(
        alloc,
        line_of(line.as_str(), "certificate.csv ").unwrap_or(""),
    )
}

// So many files stand on the desk: none, or one file `c` with a front of these bytes.
fn has_front(desk: &MemoryDesk, count: usize, front: &[u8]) -> bool {
    desk.count() == count && (count != 1 || desk.name(0) == "c" && desk.bytes(0) == front)
}

// The plan with a certificate `c`, on this desk and with these faults of the sinks.
pub(crate) fn certify(
    alloc: Global,
    files: Held,
    desk: &mut MemoryDesk,
    failing: Failing,
) -> Result<Answer, AllocError> {
    let mut shelf = MemoryShelf::new(files, 64, Vec::new(alloc));
    run_over(alloc, "plan f --cert c", &mut shelf, desk, failing)
}

// The plan of two stores behind two steps makes their certificate.
fn is_stepped(alloc: Global) -> Result<bool, AllocError> {
    let mut shelf = MemoryShelf::new(held(alloc, "f", TWO_STORES, "")?, 64, Vec::new(alloc));
    let mut desk = desk_of(alloc, 1, 4096, 65_536, 0)?;
    let words = "plan f --steps 2 --cert c";
    let answer = run_over(alloc, words, &mut shelf, &mut desk, NONE_FAILS)?;
    let text = bytes_of(alloc, line_of(STEPPED, "certificate.csv ").unwrap_or(""))?;
    Ok(answer.status == Status::Ok && has_front(&desk, 1, &text))
}

// This is told of the plan on a desk, with a certificate that has these first lines.
fn is_told(
    alloc: Global,
    desk: &mut MemoryDesk,
    head: &str,
    told: &str,
) -> Result<bool, AllocError> {
    let files = held(alloc, "f", TWO_WEEKS, files_behind(head))?;
    certify(alloc, files, desk, NONE_FAILS)?.says(alloc, told)
}

// The first line or lines of a certificate; the room of a desk, the bytes that it takes a call, its call that fails, and the files that
// stand then; and what is told. The first call makes the file, and a small room ends in the midst of the text.
const CERTIFIED: &str =
    "clearance certificate 1=4096 65536 0 1=0 season 1 stores 2 weeks 2 rungs base 2|path 1 2|prices 10.00 4.00|revenue 11.00000000 11.00000000|best yes|bound 11.50000000 step 0|gap 0.50000000|exact 11.50000000 11.50000000 first 1|
clearance certificate 1=4096 7 0 1=0 season 1 stores 2 weeks 2 rungs base 2|path 1 2|prices 10.00 4.00|revenue 11.00000000 11.00000000|best yes|bound 11.50000000 step 0|gap 0.50000000|exact 11.50000000 11.50000000 first 1|
clearance certificate 2|lengths,36,1,2,2=4096 65536 0 1=0 season 1 stores 2 weeks 2 rungs base 2|path 1 2|prices 10.00 4.00|revenue 11.00000000 11.00000000|best yes|bound 11.50000000 step 0|gap 0.50000000|exact 11.50000000 11.50000000 first 1|
clearance certificate 1=4096 65536 1 0=5 write fault: certificate
clearance certificate 1=100 65536 0 1=5 write fault: certificate";

// The certificate of a line is written as the line tells, or as much of it as the desk has room for.
fn is_certified(alloc: Global, line: &str) -> Result<bool, AllocError> {
    let (head, rest) = line.split_once('=').unwrap_or((line, ""));
    let (numbers, told) = rest.split_once('=').unwrap_or((rest, ""));
    let [room, piece, fail, count] = numbers_of(numbers);
    let mut desk = desk_of(alloc, 1, room, piece, fail)?;
    let is_told = is_told(alloc, &mut desk, head, told)?;
    let text = text_behind(alloc, head)?;
    Ok(is_told && has_front(&desk, count, &text[..room.min(text.len())]))
}

// The report of the plan on a desk breaks off at its third call.
fn is_broken_off(alloc: Global, desk: &mut MemoryDesk) -> Result<bool, AllocError> {
    let files = held(alloc, "f", TWO_WEEKS, "")?;
    let answer = certify(alloc, files, desk, Failing { report: 3, note: 0 })?;
    Ok(answer.breaks_off(&bytes_of(alloc, REPORT)?, 32))
}

// A fault of the report leaves the certificate whole.
fn is_whole_at_a_fault(alloc: Global) -> Result<bool, AllocError> {
    let mut desk = desk_of(alloc, 1, 4096, 65_536, 0)?;
    let is_broken_off = is_broken_off(alloc, &mut desk)?;
    Ok(is_broken_off && has_front(&desk, 1, &text_behind(alloc, HEAD)?))
}

#[test]
fn certificates_are_written(rt: HostRuntime) -> Result<(), Fail> {
    for line in CERTIFIED.lines() {
        assert!(rt; is_certified(rt.alloc(), line)?, "{line}");
    }
    assert!(rt; is_whole_at_a_fault(rt.alloc())?);
    assert!(rt; is_stepped(rt.alloc())?);
    Ok(())
}

// Words, and what is told. A folder that isn't there holds no certificate.
const FOLDERS: &str =
    "plan certified --cert certified/c=0 season 1 stores 2 weeks 2 rungs base 2|path 1 2|prices 10.00 4.00|revenue 11.00000000 11.00000000|best yes|bound 11.50000000 step 0|gap 0.50000000|exact 11.50000000 11.50000000 first 1|
plan certified --cert certified/no/c=5 write fault: certificate";

// Makes a folder with the files of the season.
fn make_folder(rt: &impl RealFiles, alloc: Global) -> Result<(), Fail> {
    fs::create_dir(rt, "certified")?;
    write_files(rt, &held(alloc, "certified", TWO_WEEKS, "")?)
}

// These are the bytes of the certificate.
fn is_text(alloc: Global, bytes: &[u8]) -> Result<bool, AllocError> {
    Ok(text_behind(alloc, HEAD)?.as_slice() == bytes)
}

#[test]
fn certificates_stand_in_real_folders(rt: HostRuntime) -> Result<(), Fail> {
    make_folder(&rt, rt.alloc())?;
    for line in FOLDERS.lines() {
        assert!(rt; is_line_told(&rt, rt.alloc(), line)?, "{line}");
    }
    assert!(rt; is_text(rt.alloc(), &fs::read(&rt, "certified/c")?)?);
    Ok(())
}
