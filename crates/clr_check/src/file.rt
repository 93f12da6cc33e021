// The certificate of a file, which is checked while it is read.
ghost use Rattle.clr_cert.specs.Accepts.{Accepts, cert_claims, first_no};
ghost use Rattle.clr_cert.specs.declared.no.No.{No};
ghost use Rattle.clr_check.specs.FileChecks.{IsFedFile, IsFedWhole, IsJudged, IsOfFile, IsOfReading, IsProved, rest_by};
ghost use Rattle.clr_check.specs.Laws.{ClaimsHold};
ghost use Rattle.clr_check.specs.Standing.{Stands};
ghost use Rattle.clr_io.specs.Causes.{Rose};
ghost use Rattle.clr_io.specs.Files.{held};
ghost use Rattle.clr_season.specs.Season.{Season};
ghost use Rattle.std.specs.Prelude.{◌≡◌, ℕ, ◌+◌, ◌++◌, ◌<◌, ◌≤◌, ◌↔◌, ◌⊎◌, false, length, List, [], None, Some, IfOk, IfSome, IsErrOf, IsOk, IsSomeAnd};

use crate::checker::Checker;
use crate::laws::{accepted_claims_hold, accepted_or_refused};
use crate::rest::Rest;
use clr_cert::{Claims, No};
use clr_io::{Line, Lines, Shelf};
use clr_season::Season;
use std::alloc::{AllocError, Global};
use thiserror::Error;

/// The most bytes of a certificate.
const MOST_BYTES: u64 = 268_435_456;

/// The most bytes of one of its lines, without the line feed.
const MOST_LINE: u32 = 65_536;

/// Why a certificate was not accepted.
#[derive(Clone, Copy, Debug, PartialEq, Eq, Error)]
pub enum CheckError {
    /// The shelf failed.
    #[error("the certificate could not be read")]
    Failed,
    /// The shelf holds no file of that name.
    #[error("there is no such certificate")]
    Absent,
    /// More than `max` bytes were taken.
    #[error("the certificate has more than {max} bytes")]
    TooLong {
        /// The limit that was passed, in bytes.
        max: u64,
    },
    /// The certificate has a fault.
    #[error("the certificate is refused")]
    No(No),
    /// Memory was wanting.
    #[error("out of memory")]
    Memory,
}

// What stands behind the last line feed: too many bytes, or these.
fn rest_of(bytes: &[u8], long: bool) -> Rest
    ensures { result ≡ rest_by bytes.now long }
{
    if long {
        Rest::Many
    } else if bytes.is_empty() {
        Rest::Nothing
    } else {
        Rest::Few
    }
}

// Feeds the checker all lines that come, and tells what stands behind the last. Their faults are kept by the checker, and the
// file is read to its end.
fn feed_all<H: Shelf>(
    checker: &mut Checker,
    lines: &mut Lines,
    shelf: &mut H,
) -> Result<Rest, CheckError>
    requires taken { H.taken shelf.old ≡ lines.old.taken }
    requires goes_on { lines.old.ended ≡ false }
    requires limits { (lines.old.longest ≡ 65_536) × (lines.old.max ≡ 268_435_456) }
    requires few { lines.old.taken ≤ 268_435_456 }
    ensures fed { IfOk result (λ rest. (season : Season) (fed : List (List ℕ)) → Stands season fed checker.old → IsFedWhole season fed lines.old.held (H.rest shelf.old) checker.new rest) }
    ensures read { IfOk result (λ _. IfSome (H.rest shelf.old) (λ behind. H.taken shelf.new ≡ lines.old.taken + length behind)) }
    ensures answers { IsOfReading result }
    ensures too_long { IsErrOf result (CheckError.TooLong 268_435_456) ↔ (268_435_456 < H.taken shelf.new) }
    ensures longer { IsErrOf result (CheckError.TooLong 268_435_456) → IfSome (H.rest shelf.old) (λ behind. 268_435_456 < lines.old.taken + length behind) }
    ensures within { H.taken shelf.new ≤ 268_435_456 + 65_536 }
    ensures failed { IsErrOf result CheckError.Failed → Rose (H.faults shelf.old) (H.faults shelf.new) }
    ensures files { H.files shelf.new ≡ H.files shelf.old }
    ensures later { H.faults shelf.old ≤ H.faults shelf.new }
{
    loop {
        match lines.next(shelf) {
            Ok(Line::Whole) => {
                let _ = checker.feed(lines.bytes());
            }
            Ok(Line::Long) => {
                let _ = checker.feed_long();
            }
            Ok(Line::Rest { long }) => return Ok(rest_of(lines.bytes(), long)),
            Ok(Line::Over) => return Err(CheckError::TooLong { max: MOST_BYTES }),
            Err(_) => return Err(CheckError::Failed),
        }
    }
}

// Opens the file and feeds the checker all its lines, and tells what stands behind the last.
fn feed_file<H: Shelf>(
    checker: &mut Checker,
    lines: &mut Lines,
    shelf: &mut H,
    name: &str,
) -> Result<Rest, CheckError>
    requires start { (lines.old.taken ≡ 0) × (lines.old.held ≡ []) × (lines.old.ended ≡ false) }
    requires limits { (lines.old.longest ≡ 65_536) × (lines.old.max ≡ 268_435_456) }
    ensures fed { IfOk result (λ rest. (season : Season) → Stands season [] checker.old → IsFedFile season (H.files shelf.old) name.now checker.new rest) }
    ensures read { IfOk result (λ _. IfSome (H.files shelf.old) (λ files. IsSomeAnd (held name.now files) (λ bytes. H.taken shelf.new ≡ length bytes))) }
    ensures answers { IsOfFile result }
    ensures failed { IsErrOf result CheckError.Failed → Rose (H.faults shelf.old) (H.faults shelf.new) }
    ensures absent { IfSome (H.files shelf.old) (λ files. IsErrOf result CheckError.Absent ↔ ((held name.now files ≡ None) × (¬ IsErrOf result CheckError.Failed))) }
    ensures too_long { IsErrOf result (CheckError.TooLong 268_435_456) ↔ (268_435_456 < H.taken shelf.new) }
    ensures longer { IsErrOf result (CheckError.TooLong 268_435_456) → IfSome (H.files shelf.old) (λ files. IsSomeAnd (held name.now files) (λ bytes. 268_435_456 < length bytes)) }
    ensures within { H.taken shelf.new ≤ 268_435_456 + 65_536 }
    ensures no_fault { IsErrOf result CheckError.Absent → H.faults shelf.new ≡ H.faults shelf.old }
    ensures files { H.files shelf.new ≡ H.files shelf.old }
    ensures later { H.faults shelf.old ≤ H.faults shelf.new }
{
    match shelf.open(name) {
        Ok(true) => feed_all(checker, lines, shelf),
        Ok(false) => Err(CheckError::Absent),
        Err(_) => Err(CheckError::Failed),
    }
}

// Whatever certificate of a season is accepted, its claims hold.
fn accepted_hold(season: &Season)
    ensures { (bytes : List ℕ) → Accepts season.now bytes → ClaimsHold season.now bytes (cert_claims season.now bytes) }
{
    let _ = season.stores();
    accepted_claims_hold();
}

// A checker that was fed no line, and what takes a file apart into its lines.
fn begun<'a>(alloc: Global, season: &'a Season) -> Result<(Checker<'a>, Lines), AllocError>
    ensures stands { IfOk result (λ begun. Stands season.now [] begun.0) }
    ensures start { IfOk result (λ begun. (begun.1.taken ≡ 0) × (begun.1.held ≡ []) × (begun.1.ended ≡ false)) }
    ensures limits { IfOk result (λ begun. (begun.1.longest ≡ 65_536) × (begun.1.max ≡ 268_435_456)) }
{
    let lines = Lines::new(alloc, MOST_LINE, MOST_BYTES)?;
    let checker = Checker::open(alloc, season)?;
    Ok((checker, lines))
}

/// Reads the certificate of a name line by line, and checks it: what it claims, where it is accepted, and this holds then. What is
/// accepted, and what the first fault is, says docs/formats.md, "The certificate".
///
/// It takes all its memory before it opens the file. After a fault of the certificate it still reads to the end, so a fault of
/// the shelf and a file of more than 268,435,456 bytes come before it.
///
/// # Errors
/// `Memory`, and the shelf is as it was; `Failed` where the shelf failed; `Absent` where the shelf holds no such file; `TooLong`
/// where more than the limit was taken; and `No`, the first fault of the certificate.
pub fn check_file<H: Shelf>(
    alloc: Global,
    season: &Season,
    shelf: &mut H,
    name: &str,
) -> Result<Claims, CheckError>
    // What the answers say of the file.
    ensures proved { IfOk result (λ claims. (bytes : List ℕ) × IfSome (H.files shelf.old) (λ files. held name.now files ≡ Some bytes) × IsProved season.now bytes claims) }
    ensures accepted { IsJudged result → IfSome (H.files shelf.old) (λ files. IsSomeAnd (held name.now files) (λ bytes. IsOk result ↔ Accepts season.now bytes)) }
    ensures refused { IsJudged result → IfSome (H.files shelf.old) (λ files. IsSomeAnd (held name.now files) (λ bytes. (no : No) → IsErrOf result (CheckError.No no) ↔ (first_no season.now bytes ≡ Some no))) }
    ensures read { IsJudged result → IfSome (H.files shelf.old) (λ files. IsSomeAnd (held name.now files) (λ bytes. H.taken shelf.new ≡ length bytes)) }

    // When each other answer comes. Where memory is wanting, no other answer comes.
    ensures failed { IsErrOf result CheckError.Failed → Rose (H.faults shelf.old) (H.faults shelf.new) }
    ensures absent { IfSome (H.files shelf.old) (λ files. IsErrOf result CheckError.Absent ↔ ((held name.now files ≡ None) × (¬ IsErrOf result CheckError.Failed) × (¬ IsErrOf result CheckError.Memory))) }
    ensures too_long { IsErrOf result (CheckError.TooLong 268_435_456) ↔ ((268_435_456 < H.taken shelf.new) × ¬ IsErrOf result CheckError.Memory) }
    ensures limit { (max : ℕ) → IsErrOf result (CheckError.TooLong max) → max ≡ 268_435_456 }
    ensures longer { IsErrOf result (CheckError.TooLong 268_435_456) → IfSome (H.files shelf.old) (λ files. IsSomeAnd (held name.now files) (λ bytes. 268_435_456 < length bytes)) }

    // It stops once more than the limit was taken: within one more buffer. Where memory is wanting, nothing is opened.
    ensures within { (H.taken shelf.new ≤ 268_435_456 + 65_536) ⊎ (IsErrOf result CheckError.Memory × (shelf.new ≡ shelf.old)) }

    // What stays.
    ensures memory { IsErrOf result CheckError.Memory → shelf.new ≡ shelf.old }
    ensures no_fault { IsErrOf result CheckError.Absent → H.faults shelf.new ≡ H.faults shelf.old }
    ensures files { H.files shelf.new ≡ H.files shelf.old }
    ensures later { H.faults shelf.old ≤ H.faults shelf.new }
{
    let (mut checker, mut lines) = match begun(alloc, season) {
        Ok(begun) => begun,
        Err(_) => return Err(CheckError::Memory),
    };
    let rest = feed_file(&mut checker, &mut lines, shelf, name)?;
    accepted_hold(season);
    accepted_or_refused();
    match checker.finish(rest) {
        Ok(claims) => Ok(claims),
        Err(no) => Err(CheckError::No(no)),
    }
}
