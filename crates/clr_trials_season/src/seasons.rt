// Small seasons of the tests, and what is shown of them. A season is a text with a file a line: its name, and behind a blank its
// bytes, in which `|` stands for a line feed and `@` for a byte order mark.
use clr_io::MemoryShelf;
use clr_season::{Season, read_season};
use std::alloc::{AllocError, Global};
use std::slice;
use std::test::Fail;

// The files of most seasons: two weeks and the prices 10.00 and 4.00. On rung 1 one store sells nothing or one unit in each week, and
// on rung 2 nothing in week 1 and two units in week 2. It opens with two.
const COMMON: &str = r#"f/rules.json {"weeks":2,"base":2}
f/ladder.csv rung,price|1,10.00|2,4.00|
f/stock.csv store,units,salvage|a,2,0|
f/demand.csv store,week,rung,units,weight|a,1,1,0,1|a,1,1,1,1|a,2,1,0,1|a,2,1,1,1|a,1,2,0,2|a,2,2,2,2|"#;

/// The bytes of a text as the tables write it.
pub(crate) fn bytes_of(alloc: Global, text: &str) -> Result<Vec<u8>, AllocError> {
    let mut bytes = Vec::new(alloc);
    for sign in text.as_bytes() {
        let meant = match *sign {
            b'|' => b"\n",
            b'@' => b"\xef\xbb\xbf".as_slice(),
            _ => slice::from_ref(sign),
        };
        bytes.extend_from_slice(meant)?;
    }
    Ok(bytes)
}

/// Puts a file behind those of a list.
pub(crate) fn put(
    alloc: Global,
    name: &str,
    bytes: Vec<u8>,
    files: &mut Vec<(String, Vec<u8>)>,
) -> Result<(), AllocError> {
    let name = String::from_str(alloc, name)?;
    files.push((name, bytes))?;
    Ok(())
}

// Puts these files behind those of a list.
fn put_files(
    alloc: Global,
    text: &str,
    files: &mut Vec<(String, Vec<u8>)>,
) -> Result<(), AllocError> {
    for line in text.lines() {
        let (name, bytes) = line.split_once(' ').unwrap_or((line, ""));
        put(alloc, name, bytes_of(alloc, bytes)?, files)?;
    }
    Ok(())
}

fn season_of(alloc: Global, mut shelf: MemoryShelf) -> Result<Season, Fail> {
    let season = read_season(alloc, &mut shelf, "f")?;
    Ok(season)
}

/// Whether a text was found, and is the wanted one.
pub(crate) fn is_text(found: Result<String, AllocError>, want: &str) -> Result<bool, Fail> {
    Ok(found?.as_str() == want)
}

/// Whether a function that is told something shows the wanted text of the season of a shelf's folder `f`.
pub(crate) fn read_shows<F: FnOnce(Global, &Season, &str) -> Result<String, AllocError>>(
    alloc: Global,
    shelf: MemoryShelf,
    show: F,
    told: &str,
    want: &str,
) -> Result<bool, Fail>
    requires { F.IsAlwaysCallable show }
{
    let season = season_of(alloc, shelf)?;
    is_text(show(alloc, &season, told), want)
}

/// The same of the season of these files, and for each that is absent the common one.
pub(crate) fn shows<F: FnOnce(Global, &Season, &str) -> Result<String, AllocError>>(
    alloc: Global,
    text: &str,
    show: F,
    told: &str,
    want: &str,
) -> Result<bool, Fail>
    requires { F.IsAlwaysCallable show }
{
    let mut files = Vec::new(alloc);
    put_files(alloc, text, &mut files)?;
    // Of two files of a name the first counts.
    put_files(alloc, COMMON, &mut files)?;
    let shelf = MemoryShelf::new(files, 16, Vec::new(alloc));
    read_shows(alloc, shelf, show, told, want)
}

/// The two sides of a case.
pub(crate) fn sides(case: &str) -> (&str, &str) {
    case.split_once("=>").unwrap_or((case, ""))
}

/// The line behind a case's heading, and what stands behind that.
pub(crate) fn want_and_rest(case: &str) -> (&str, &str) {
    let (_, case) = case.split_once('\n').unwrap_or((case, ""));
    case.split_once('\n').unwrap_or((case, ""))
}
