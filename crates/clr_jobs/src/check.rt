// The report on the certificate of a season.
ghost use Rattle.std.specs.Prelude.{◌≡◌, ◌+◌, ◌≤◌, IfOk, IfSome, IsErrOf, None, string_bytes};
ghost use Rattle.clr_cert.specs.Accepts.{claims_of};
ghost use Rattle.clr_report.specs.CheckText.{check_text};
ghost use Rattle.clr_report.specs.declared.note.Cause.{Cause};
ghost use Rattle.clr_report.specs.declared.note.Doc.{Doc};
ghost use Rattle.clr_rules.specs.Rules.{IsPath};
ghost use Rattle.clr_jobs.specs.Checking.{CheckReports, cert_path, check_ends, ending_unaccepted};
ghost use Rattle.clr_jobs.specs.FileEnds.{EndsBy};
ghost use Rattle.clr_words.specs.Asked.{ask_of};

use clr_check::{CheckError, Claims, check_file};
use clr_io::Shelf;
use clr_report::{Cause, Doc, check_text};
use clr_season::Season;
use clr_words::Asked;
use std::alloc::{AllocError, Global};

// The name of the certificate that is asked.
fn cert_name(alloc: Global, asked: &Asked) -> Result<String, AllocError>
    ensures { IfOk result (λ s. string_bytes s ≡ cert_path (ask_of asked.now)) }
{
    if asked.cert.as_str() == "-" {
        let mut name = String::from_str(alloc, asked.folder.as_str())?;
        name.push_str("/certificate.csv")?;
        Ok(name)
    } else {
        String::from_str(alloc, asked.cert.as_str())
    }
}

// How a run ends by a certificate that was not accepted.
fn unaccepted(error: CheckError) -> Cause
    ensures { result ≡ ending_unaccepted error }
{
    let doc = Doc::Certificate;
    match error {
        CheckError::Failed => Cause::ReadFault { doc },
        CheckError::Absent => Cause::Absent { doc },
        CheckError::TooLong { max } => Cause::TooLong { doc, max },
        CheckError::No(no) => Cause::CertificateNo { no },
        CheckError::Memory => Cause::Memory,
    }
}

// The report on the claims of a certificate.
fn claims_report(alloc: Global, season: &Season, claims: &Claims) -> Result<Vec<u8>, Cause>
    requires { IsPath season.now.rules claims.now.path }
    ensures text { IfOk result (λ text. text.items ≡ check_text season.now (claims_of claims.now)) }
    ensures memory { (ending : Cause) → IsErrOf result ending → ending ≡ Cause.Memory }
{
    match check_text(alloc, season, claims) {
        Ok(text) => Ok(text),
        Err(_) => Err(Cause::Memory),
    }
}

/// The report of the job `check` over a season that was read from the shelf's folder: on the certificate that is asked, or the
/// folder's certificate.csv where none is.
///
/// The order of the answers is `ReadFault`, `Absent`, `TooLong`, and then `CertificateNo` of its first fault. `Memory` may come
/// anywhere.
pub(crate) fn check_season<H: Shelf>(
    alloc: Global,
    season: &Season,
    asked: &Asked,
    shelf: &mut H,
) -> Result<Vec<u8>, Cause>
    ensures reports { IfOk result (λ text. CheckReports (H.files shelf.old) season.now (ask_of asked.now) text.items) }
    ensures passes { IfOk result (λ text. IfSome (H.files shelf.old) (λ held. check_ends season.now (ask_of asked.now) held ≡ None)) }
    ensures ends { (ending : Cause) → IsErrOf result ending → EndsBy (H.files shelf.old) (check_ends season.now (ask_of asked.now)) Doc.Certificate (H.taken shelf.new) (H.faults shelf.old) (H.faults shelf.new) ending }
    ensures within { H.taken shelf.old ≤ 268_435_456 + 65_536 → H.taken shelf.new ≤ 268_435_456 + 65_536 }
    ensures files { H.files shelf.new ≡ H.files shelf.old }
    ensures later { H.faults shelf.old ≤ H.faults shelf.new }
{
    let Ok(name) = cert_name(alloc, asked) else {
        return Err(Cause::Memory);
    };
    match check_file(alloc, season, shelf, name.as_str()) {
        Ok(claims) => claims_report(alloc, season, &claims),
        Err(error) => Err(unaccepted(error)),
    }
}
