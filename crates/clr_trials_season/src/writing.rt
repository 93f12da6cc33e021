// Certificates on desks in memory.
use crate::seasons::{shows, sides};
use crate::worked::write_worked;
use clr_cert::CertError;
use clr_io::MemoryDesk;
use clr_rules::Live;
use clr_season::Season;
use std::alloc::{AllocError, Global};
use std::test::Fail;

// The files of the season of version 3 that aren't the common ones.
const VERSION_3: &str = r#"f/rules.json {"version":3,"weeks":2,"base":2}
f/stock.csv store,units,salvage,relabel|a,2,0,0|"#;

const FIRST_LINES: &str = "clearance certificate 1\n";

const FIRST_LINES_3: &str = "clearance certificate 2\nlengths,36,1,2,2\n";

const LINES: &str = "path,1,2
m,1,1,0
m,1,2,0
m,2,1,0
m,2,2,0
l,2,1,0,0,0
h,2,1,0,0,0
v,2,1,1,0,1,0,0,0
v,2,1,2,1,1,0,0,0
j,2,1,0,1,0,0,0,0
j,2,1,0,1,1,0,0,0
j,2,1,0,1,2,0,0,0
j,2,2,1,1,0,0,0,0
j,2,2,1,1,1,0,0,0
j,2,2,1,1,2,0,0,0
l,1,1,0,400000000,800000000
h,1,1,0,400000000,800000000
v,1,1,1,0,1,0,500000000,800000000
v,1,1,2,1,1,0,400000000,800000000
j,1,1,0,1,0,1,0,0
j,1,1,0,1,1,1,500000000,500000000
j,1,1,0,1,2,2,800000000,800000000
j,1,2,1,1,0,2,0,0
j,1,2,1,1,1,2,400000000,400000000
j,1,2,1,1,2,2,800000000,800000000
l,0,1,0,700000000,1100000000
h,0,1,0,700000000,1100000000
v,0,1,1,0,1,0,750000000,1150000000
j,0,1,0,1,0,1,0,0
j,0,1,0,1,1,1,750000000,750000000
j,0,1,0,1,2,1,1150000000,1150000000
revenue,1100000000,1100000000
bound,1150000000
exact,1150000000,1150000000
";

// The room of a desk, and which of its calls fails; and what comes of the certificate, with how many files are made and how many
// bytes of its text stand in the first. Each write takes 100 bytes at most, and the first lines of version 1 have 24, those of version
// 3 have 41, and all others 761. Without a fault all stand. Where the first call fails no file is made. Where the third write fails,
// 200 bytes stand. The room is used up after 30 bytes.
const CASES: &str = "1 4096 0=>Ok(()) 1 Some(785)
3 4096 0=>Ok(()) 1 Some(802)
1 4096 1=>Err(Failed) 0 None
1 4096 4=>Err(Failed) 1 Some(200)
1 30 0=>Err(Failed) 1 Some(30)";

// A desk of the room that is told, which takes 100 bytes at a time and fails at the call that is told.
fn desk_of(alloc: Global, told: &str) -> Result<MemoryDesk, AllocError> {
    let (room, fail) = told.split_once(' ').unwrap_or((told, ""));
    let mut faults = Vec::new(alloc);
    faults.push(fail.parse::<u64>().unwrap_or(0))?;
    MemoryDesk::new(alloc, 1, room.parse::<usize>().unwrap_or(0), 100, faults)
}

// Writes the certificate of the season, which the tables tell.
fn write(alloc: Global, season: &Season, desk: &mut MemoryDesk) -> Result<(), CertError> {
    let Ok(live) = Live::build(alloc, season.rules()) else {
        return Err(CertError::Memory);
    };
    if season.weeks() != 2 || season.rungs() != 2 || !live.any() {
        return Err(CertError::Memory);
    }
    write_worked(alloc, season, &live, "c", desk)
}

// How many bytes of the text stand in the desk's first file; nothing where it has another name or other bytes.
fn standing(desk: &MemoryDesk, version: u32) -> Option<usize> {
    if desk.count() == 0 || desk.name(0) != "c" {
        return None;
    }
    let bytes = desk.bytes(0);
    let first = if version == 3 {
        FIRST_LINES_3
    } else {
        FIRST_LINES
    };
    let rest = bytes.strip_prefix(first.as_bytes())?;
    LINES.as_bytes().starts_with(rest).then_some(bytes.len())
}

// What comes of the certificate on a desk of which this is told.
fn written(alloc: Global, season: &Season, told: &str) -> Result<String, AllocError> {
    let mut desk = desk_of(alloc, told)?;
    let result = write(alloc, season, &mut desk);
    let standing = standing(&desk, season.version());
    format!(in alloc; "{result:?} {} {standing:?}", desk.count())
}

fn is_written(alloc: Global, case: &str) -> Result<bool, Fail> {
    let (told, want) = sides(case);
    let (version, told) = told.split_once(' ').unwrap_or((told, ""));
    let files = if version == "3" { VERSION_3 } else { "" };
    shows(alloc, files, written, told, want)
}

#[test]
fn certificates_are_written(rt: HostRuntime) -> Result<(), Fail> {
    for case in CASES.lines() {
        assert!(rt; is_written(rt.alloc(), case)?, "{case}");
    }
    Ok(())
}
