// Two seasons, the certificate of the first, and texts that are made of its lines.
use clr_io::MemoryShelf;
use clr_season::{Season, read_season};
use std::alloc::{AllocError, Global};
use std::test::Fail;

// The files of the two seasons, one in a line: its name and its text, in which `|` stands for a line feed. The first season has one
// store and two weeks: on rung 1 nothing or one unit is asked for in each week; on rung 2 nothing in week 1, and two in week 2. The
// other has two stores and one week: the first store sells one unit on both rungs, the second one on rung 2 alone.
const FILES: &str = r#"adaptive/rules.json {"weeks":2,"base":2}
adaptive/ladder.csv rung,price|1,10.00|2,4.00|
adaptive/stock.csv store,units,salvage|a,2,0|
adaptive/demand.csv store,week,rung,units,weight|a,1,1,0,1|a,1,1,1,1|a,2,1,0,1|a,2,1,1,1|a,1,2,0,2|a,2,2,2,2|
two_stores/rules.json {"weeks":1,"base":2}
two_stores/ladder.csv rung,price|1,10.00|2,6.00|
two_stores/stock.csv store,units,salvage|a,1,0|b,1,0|
two_stores/demand.csv store,week,rung,units,weight|a,1,1,1,2|a,1,2,1,2|b,1,1,0,2|b,1,2,1,2|"#;

/// The lines of the certificate of the first season.
pub const CERTIFICATE: &str = "clearance certificate 1
path,1,2
m,1,1,0
m,1,2,0
m,2,1,0
m,2,2,0
l,2,1,0,0,0
h,2,1,0,0,0
v,2,1,1,0,1,0,0,0
v,2,1,2,1,1,0,0,0
j,2,1,0,1,0,0,0,0
j,2,1,0,1,1,0,0,0
j,2,1,0,1,2,0,0,0
j,2,2,1,1,0,0,0,0
j,2,2,1,1,1,0,0,0
j,2,2,1,1,2,0,0,0
l,1,1,0,400000000,800000000
h,1,1,0,400000000,800000000
v,1,1,1,0,1,0,500000000,800000000
v,1,1,2,1,1,0,400000000,800000000
j,1,1,0,1,0,1,0,0
j,1,1,0,1,1,1,500000000,500000000
j,1,1,0,1,2,2,800000000,800000000
j,1,2,1,1,0,2,0,0
j,1,2,1,1,1,2,400000000,400000000
j,1,2,1,1,2,2,800000000,800000000
l,0,1,0,700000000,1100000000
h,0,1,0,700000000,1100000000
v,0,1,1,0,1,0,750000000,1150000000
j,0,1,0,1,0,1,0,0
j,0,1,0,1,1,1,750000000,750000000
j,0,1,0,1,2,1,1150000000,1150000000
revenue,1100000000,1100000000
bound,1150000000
exact,1150000000,1150000000";

/// The bytes of a text in which `|` stands for a line feed, `^` for a carriage return and `!` for a byte that is no UTF-8.
pub fn bytes_of(alloc: Global, text: &str) -> Result<Vec<u8>, AllocError> {
    let mut bytes = text.as_bytes().to_vec(alloc)?;
    for byte in bytes.iter_mut() {
        match *byte {
            b'|' => *byte = b'\n',
            b'^' => *byte = b'\r',
            b'!' => *byte = 0xff,
            _ => {}
        }
    }
    Ok(bytes)
}

fn file(alloc: Global, name: &str, text: &str) -> Result<(String, Vec<u8>), AllocError> {
    Ok((String::from_str(alloc, name)?, bytes_of(alloc, text)?))
}

fn files(alloc: Global) -> Result<Vec<(String, Vec<u8>)>, AllocError> {
    let mut files = Vec::new(alloc);
    for line in FILES.lines() {
        let (name, text) = line.split_once(' ').unwrap_or((line, ""));
        files.push(file(alloc, name, text)?)?;
    }
    Ok(files)
}

/// The season of this name.
pub fn season_of(alloc: Global, name: &str) -> Result<Season, Fail> {
    let mut shelf = MemoryShelf::new(files(alloc)?, 4_096, Vec::new(alloc));
    let season = read_season(alloc, &mut shelf, name)?;
    Ok(season)
}

/// Adds the rows of the certificate behind the first `from` up to the row `to`.
pub fn add_rows(bytes: &mut Vec<u8>, from: usize, to: usize) -> Result<(), AllocError> {
    for line in CERTIFICATE.lines().take(to).skip(from) {
        bytes.extend_from_slice(line.as_bytes())?;
        bytes.push(b'\n')?;
    }
    Ok(())
}

/// The first `kept` rows of the certificate, a text, and the rows behind the first `from`.
pub fn spliced(
    alloc: Global,
    kept: usize,
    text: &[u8],
    from: usize,
) -> Result<Vec<u8>, AllocError> {
    let mut bytes = Vec::new(alloc);
    add_rows(&mut bytes, 0, kept)?;
    bytes.extend_from_slice(text)?;
    add_rows(&mut bytes, from, 35)?;
    Ok(bytes)
}
