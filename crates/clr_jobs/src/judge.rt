// The report on the policy of a season's folder.
ghost use Rattle.std.specs.Prelude.{◌≡◌, ◌⊎◌, ◌+◌, ◌≤◌, ℕ, IfOk, IfSome, IsErrOf, List, None, Ok, OnOk, Option, Some, length, string_bytes};
ghost use Rattle.clr_io.specs.Files.{held};
ghost use Rattle.clr_policy.specs.Judged.{judgement};
ghost use Rattle.clr_policy.specs.PolicyFile.{policy_of};
ghost use Rattle.clr_policy.specs.Unrolled.{IsValued};
ghost use Rattle.clr_policy.specs.Written.{IsPolicy, Written, written};
ghost use Rattle.clr_report.specs.declared.note.Cause.{Cause};
ghost use Rattle.clr_report.specs.declared.note.Doc.{Doc};
ghost use Rattle.clr_jobs.specs.FileEnds.{EndsBy};
ghost use Rattle.clr_jobs.specs.Judging.{JudgeReports, ending_unread, ending_unvalued, ends_of_bytes, ends_of_file, ends_of_judgement, judge_ends, policy_path, policy_text};
ghost use Rattle.clr_num.specs.Rounding.{floor};
ghost use Rattle.clr_words.specs.Asked.{ask_of};

use clr_io::{ReadError, Shelf, read_whole};
use clr_num::{Direction, Down, Up};
use clr_policy::{JudgeError, Policy, PolicyError, judge, objects, read_policy};
use clr_report::{Cause, Doc, judge_text};
use clr_season::Season;
use clr_words::Asked;
use std::alloc::{AllocError, Global};

// The greatest number of bytes of a policy file.
const MOST_BYTES: u64 = 33_554_432;

// The name of the policy file of a folder.
fn path(alloc: Global, folder: &str) -> Result<String, AllocError>
    ensures { IfOk result (λ s. string_bytes s ≡ policy_path folder.now) }
{
    let mut path = String::from_str(alloc, folder)?;
    path.push_str("/policy.json")?;
    Ok(path)
}

// The bytes of the policy file of a folder.
fn fetch<H: Shelf>(alloc: Global, shelf: &mut H, folder: &str) -> Result<Vec<u8>, Cause>
    ensures bytes { IfOk result (λ v. IfSome (H.files shelf.old) (λ files. held (policy_path folder.now) files ≡ Some v.items)) }
    ensures short { IfOk result (λ v. length v.items ≤ 33554432) }
    ensures ends { (by_bytes : List ℕ → Option Cause) (ending : Cause) → IsErrOf result ending → EndsBy (H.files shelf.old) (λ files. ends_of_file by_bytes (held (policy_path folder.now) files)) Doc.Policy (H.taken shelf.new) (H.faults shelf.old) (H.faults shelf.new) ending }
    ensures within { H.taken shelf.old ≤ 268_435_456 + 65_536 → H.taken shelf.new ≤ 268_435_456 + 65_536 }
    ensures files { H.files shelf.new ≡ H.files shelf.old }
    ensures later { H.faults shelf.old ≤ H.faults shelf.new }
{
    let Ok(path) = path(alloc, folder) else {
        return Err(Cause::Memory);
    };
    match read_whole(alloc, shelf, path.as_str(), MOST_BYTES) {
        Ok(bytes) => Ok(bytes),
        Err(ReadError::Failed) => Err(Cause::ReadFault { doc: Doc::Policy }),
        Err(ReadError::Absent) => Err(Cause::Absent { doc: Doc::Policy }),
        Err(ReadError::TooLong { max: _ }) => Err(Cause::TooLong {
            doc: Doc::Policy,
            max: MOST_BYTES,
        }),
        Err(ReadError::Memory) => Err(Cause::Memory),
    }
}

// How a run ends by a policy file that has no reading.
fn unread(error: PolicyError) -> Cause
    ensures { result ≡ ending_unread error }
{
    match error {
        PolicyError::Json => Cause::PolicyJson,
        PolicyError::Shape { branch } => Cause::PolicyShape { branch },
        PolicyError::Unknown { branch } => Cause::PolicyUnknown { branch },
        PolicyError::Memory => Cause::Memory,
    }
}

// How a run ends by a policy that has no value.
fn unvalued(error: JudgeError) -> Cause
    ensures { result ≡ ending_unvalued error }
{
    match error {
        JudgeError::Rule { branch, rule } => Cause::PolicyRule { branch, rule },
        JudgeError::Base => Cause::Base,
        JudgeError::Size { found } => Cause::Size { found },
        JudgeError::Memory => Cause::Memory,
    }
}

// The value of a policy, each week rounded in the direction `R`.
fn value_of<R: Direction>(alloc: Global, season: &Season, policy: &Policy) -> Result<i128, Cause>
    requires { IsPolicy season.now (written policy.now) }
    ensures value { IfOk result (λ value. judgement R.quotient season.now (written policy.now) ≡ Ok value) }
    ensures valued { OnOk result (IsValued season.now (written policy.now)) }
    ensures ends { (ending : Cause) → IsErrOf result ending → (ending ≡ Cause.Memory) ⊎ (ends_of_judgement (judgement floor season.now (written policy.now)) ≡ Some ending) }
{
    match judge::<R>(alloc, season, policy) {
        Ok(value) => Ok(value),
        Err(error) => Err(unvalued(error)),
    }
}

// The report on a policy.
fn policy_report(alloc: Global, season: &Season, policy: &Policy) -> Result<Vec<u8>, Cause>
    requires { IsPolicy season.now (written policy.now) }
    ensures text { IfOk result (λ text. text.items ≡ policy_text season.now (written policy.now)) }
    ensures valued { OnOk result (IsValued season.now (written policy.now)) }
    ensures passes { OnOk result (ends_of_judgement (judgement floor season.now (written policy.now)) ≡ None) }
    ensures ends { (ending : Cause) → IsErrOf result ending → (ending ≡ Cause.Memory) ⊎ (ends_of_judgement (judgement floor season.now (written policy.now)) ≡ Some ending) }
{
    let low = value_of::<Down>(alloc, season, policy)?;
    let high = value_of::<Up>(alloc, season, policy)?;
    match judge_text(alloc, season, objects(policy), low, high) {
        Ok(text) => Ok(text),
        Err(_) => Err(Cause::Memory),
    }
}

// The report on the policy that these bytes are.
fn judge_bytes(alloc: Global, season: &Season, bytes: &[u8]) -> Result<Vec<u8>, Cause>
    requires { length bytes.now ≤ 33554432 }
    ensures reports { IfOk result (λ text. (policy : Written) × (policy_of season.now bytes.now ≡ Ok policy) × IsPolicy season.now policy × IsValued season.now policy × (text.items ≡ policy_text season.now policy)) }
    ensures passes { OnOk result (ends_of_bytes season.now bytes.now ≡ None) }
    ensures ends { (ending : Cause) → IsErrOf result ending → (ending ≡ Cause.Memory) ⊎ (ends_of_bytes season.now bytes.now ≡ Some ending) }
{
    match read_policy(alloc, season, bytes) {
        Ok(policy) => policy_report(alloc, season, &policy),
        Err(error) => Err(unread(error)),
    }
}

/// The report of the job `judge` over a season that was read from the shelf's folder: on the policy of the folder's
/// policy.json.
///
/// The order of the answers is `ReadFault`, `Absent`, `TooLong`, and then what the file says: `PolicyJson`, `PolicyShape` or
/// `PolicyUnknown` where it has no reading, `PolicyRule` where a branch breaks a rule, `Base`, and `Size`. `Memory` may come
/// anywhere.
pub(crate) fn judge_season<H: Shelf>(
    alloc: Global,
    season: &Season,
    asked: &Asked,
    shelf: &mut H,
) -> Result<Vec<u8>, Cause>
    ensures reports { IfOk result (λ text. JudgeReports (H.files shelf.old) season.now (ask_of asked.now) text.items) }
    ensures passes { IfOk result (λ text. IfSome (H.files shelf.old) (λ held. judge_ends season.now (ask_of asked.now) held ≡ None)) }
    ensures ends { (ending : Cause) → IsErrOf result ending → EndsBy (H.files shelf.old) (judge_ends season.now (ask_of asked.now)) Doc.Policy (H.taken shelf.new) (H.faults shelf.old) (H.faults shelf.new) ending }
    ensures within { H.taken shelf.old ≤ 268_435_456 + 65_536 → H.taken shelf.new ≤ 268_435_456 + 65_536 }
    ensures files { H.files shelf.new ≡ H.files shelf.old }
    ensures later { H.faults shelf.old ≤ H.faults shelf.new }
{
    let bytes = fetch(alloc, shelf, asked.folder.as_str())?;
    judge_bytes(alloc, season, &bytes)
}
