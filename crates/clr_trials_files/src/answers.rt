// The answers of the checker, and those that it must give.
use clr_check::{CheckError, Checker, Claims, check_file};
use clr_io::MemoryShelf;
use clr_season::Season;
use std::alloc::{AllocError, Global};

const PIECES: [usize; 3] = [1, 16, 65_536];

/// What the checker is to answer: the row of a refusal, and its kind with its two sides. Any other answer has the row 0.
#[derive(Clone, Copy)]
pub struct Want<'x> {
    pub row: usize,
    pub rest: &'x str,
}

/// A whole number of a case.
pub fn number(text: &str) -> i64 {
    text.parse::<i64>().unwrap_or(0)
}

/// A number of a case that is a count or a row.
pub fn count(text: &str) -> usize {
    usize::try_from(number(text)).unwrap_or(0)
}

/// The answer of a case.
pub fn want_of(text: &str) -> Want<'_> {
    let (row, rest) = text.split_once(' ').unwrap_or(("0", text));
    Want {
        row: count(row),
        rest,
    }
}

// Whether these are the claims of the certificate. No change of the lines that claim something is accepted.
fn are_its_claims(claims: &Claims) -> bool {
    claims.path.rungs() == [1, 2].as_slice()
        && claims.low == 1_100_000_000
        && claims.high == 1_100_000_000
        && claims.bound == 1_150_000_000
        && claims.exact == Some((1_150_000_000, 1_150_000_000))
}

// The row of an answer that is no acceptance, and the rest of its text.
fn shown(alloc: Global, error: CheckError) -> Result<(usize, String), AllocError> {
    Ok(match error {
        CheckError::No(no) => (
            usize::try_from(no.row).unwrap_or(0),
            format!(in alloc; "{:?} {} {}", no.kind, no.left, no.right)?,
        ),
        error => (0, format!(in alloc; "{error}")?),
    })
}

// Whether the checker answers this for a certificate on a shelf. Where it accepts, the claims are those of the certificate.
fn is_answer(
    alloc: Global,
    season: &Season,
    shelf: &mut MemoryShelf,
    name: &str,
    want: Want<'_>,
) -> Result<bool, AllocError> {
    match check_file(alloc, season, shelf, name) {
        Ok(claims) => Ok(want.rest == "yes" && are_its_claims(&claims)),
        Err(error) => {
            let (row, rest) = shown(alloc, error)?;
            Ok(row == want.row && rest.as_str() == want.rest)
        }
    }
}

// A shelf whose file `c` has this text, which is read by so many bytes, and which fails at a call.
fn shelf_of(
    alloc: Global,
    text: &[u8],
    piece: usize,
    call: usize,
) -> Result<MemoryShelf, AllocError> {
    let mut files = Vec::new(alloc);
    files.push((String::from_str(alloc, "c")?, text.to_vec(alloc)?))?;
    Ok(MemoryShelf::new(files, piece.max(1), [call as u64].to_vec(alloc)?))
}

/// Whether the checker answers this for the certificate of a name on a shelf whose file `c` has this text, which is read by so many bytes,
/// and which fails at a call, counted from 1.
pub fn is_answered_over(
    alloc: Global,
    season: &Season,
    name: &str,
    text: &[u8],
    piece: usize,
    call: usize,
    want: Want<'_>,
) -> Result<bool, AllocError> {
    let mut shelf = shelf_of(alloc, text, piece, call)?;
    is_answer(alloc, season, &mut shelf, name, want)
}

// How many lines a checker takes that is fed the lines of a text.
fn feed_lines(checker: &mut Checker<'_>, text: &[u8]) -> usize {
    let mut taken = 0_usize;
    for line in text.split(|byte| *byte == b'\n') {
        if !line.contains(&b'\n') && checker.feed(line).is_ok() {
            taken = taken.saturating_add(1);
        }
    }
    taken
}

// Whether a checker that is fed line after line takes those before the one that is refused, and then answers this.
fn is_fed(alloc: Global, season: &Season, text: &[u8], want: Want<'_>) -> Result<bool, AllocError> {
    let mut checker = Checker::open(alloc, season)?;
    let taken = feed_lines(&mut checker, text);
    match checker.close() {
        Ok(claims) => Ok(want.rest == "yes" && are_its_claims(&claims)),
        Err(no) => {
            let (row, rest) = shown(alloc, CheckError::No(no))?;
            Ok(row == want.row && rest.as_str() == want.rest && taken.saturating_add(1) == row)
        }
    }
}

// The same of a text whose last line ends too; no other is a list of lines.
fn is_fed_alike(
    alloc: Global,
    season: &Season,
    text: &[u8],
    want: Want<'_>,
) -> Result<bool, AllocError> {
    match text.strip_suffix(b"\n") {
        Some(lines) => is_fed(alloc, season, lines, want),
        None => Ok(true),
    }
}

/// Whether the checker answers this for a certificate, however the reads are cut, and where its lines are fed one by one.
pub fn is_answered(
    alloc: Global,
    season: &Season,
    text: &[u8],
    want: Want<'_>,
) -> Result<bool, AllocError> {
    for piece in PIECES {
        if !is_answered_over(alloc, season, "c", text, piece, 0, want)? {
            return Ok(false);
        }
    }
    is_fed_alike(alloc, season, text, want)
}
