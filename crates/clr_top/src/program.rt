//! The program's one call: it does what the words ask, over any shelf, desk and sinks.

ghost use Rattle.std.specs.Prelude.{◌≡◌, ◌≢◌, ◌⊎◌, ◌+◌, ◌≤◌, [], IfSome, Some, None, map, string_bytes};
ghost use Rattle.clr_io.specs.Causes.{Rose};
ghost use Rattle.clr_io.specs.Files.{Files};
ghost use Rattle.clr_jobs.specs.Outputs.{Fails, Wrote};
ghost use Rattle.clr_jobs.specs.Runs.{Caused, LeavesOutputs, MakesSeason, ReadsSeason, Writes, docs_asked, ending_asked};
ghost use Rattle.clr_report.specs.declared.note.Cause.{Cause};
ghost use Rattle.clr_report.specs.declared.note.Doc.{Doc};
ghost use Rattle.clr_top.specs.Endings.{Exactly, Notes, status_of};
ghost use Rattle.clr_words.specs.Asked.{asked_of};

use crate::ending::{Status, ending_status, write_note};
use clr_io::{Desk, Shelf, Sink};
use clr_jobs::work;
use std::alloc::Global;

/// Does what the words ask; they are the words behind the program's name, read by `clap` as the command with the required
/// JOB and FOLDER and the options `--steps`, `--step`, `--nodes`, `--cert` and `--seed`. `plan FOLDER` reads the season of
/// the folder's files from the shelf, makes the certificate of its plan as a file of the name `--cert` on the desk, unless
/// the name is `-`, and then writes the plan report: of the bound over all policies that a descent of `--steps` steps of
/// the size `--step` gives; of the path that a search of `--nodes` tight prefixes finds with the multipliers of that bound;
/// and, where the season is small enough, of the table for the stocks of all stores. `--seed` has no effect on a plan.
/// `check FOLDER` reads the season, and then the certificate of the name `--cert`, or the folder's certificate.csv where
/// the name is `-`, from the shelf, and writes the check report: of what the certificate claims. `judge FOLDER` reads the
/// season, and then the folder's policy.json from the shelf, and writes the judge report: of the policy's size in rungs and
/// tests, and of what it earns. `make FOLDER` reads nothing: it makes the season of `--seed`, makes its rules.json,
/// ladder.csv, stock.csv and demand.csv in this order as files of the folder on the desk, and then writes the plan report
/// of that season; it makes no certificate.
///
/// The order of the answers is `Words`, and then by the job. Of `plan`, `check` and `judge` it is, file by file
/// (rules.json, calendar.csv where the rules say that there is one, ladder.csv, stock.csv, demand.csv), `ReadFault`,
/// `Absent`, `Limit` where the file is too long, and `Refused`; behind all files `Limit` where the cells are too many; for
/// a plan `NoPath` where no path obeys; for a certificate `ReadFault`, `Absent`, `Limit` where it is too long, and
/// `CertificateNo` of its first fault; for a policy `ReadFault`, `Absent`, `Limit` where its file is too long, `PolicyNo`
/// where it has no reading or a branch breaks a rule, and `Limit` where the base of the weights or the policy is too large.
/// Then comes, for each of these and for `make`, `WriteFault`: of the files that the job makes, in their order, and then of
/// the report. `Memory` may come anywhere before the first call of the desk or of the report's sink. For each status but
/// `Ok` one note goes to `note`.
pub fn run<H: Shelf, D: Desk, O: Sink, N: Sink>(
    alloc: Global,
    words: &[String],
    shelf: &mut H,
    desk: &mut D,
    out: &mut O,
    note: &mut N,
) -> Status
    // With `Ok` all outputs of what is asked were written, and no note: behind the files on the desk stand those that the job
    // makes, and behind the report's bytes its report.
    ensures ok { result ≡ Status.Ok → Writes (H.files shelf.old) (map string_bytes words.now) (λ outputs. Wrote outputs (D.made desk.old) (D.made desk.new) (O.written out.old) (O.written out.new)) }
    ensures silent { result ≡ Status.Ok → note.new ≡ note.old }

    // Each other status has its cause, and the note of it was written. After a fault the outputs before the failed one stand
    // whole, of the failed one a front or no file, and nothing of a later one.
    ensures caused { result ≢ Status.Ok → (ending : Cause) × (result ≡ status_of ending)
        × Caused (H.files shelf.old) (map string_bytes words.now) (H.taken shelf.new) (Rose (H.faults shelf.old) (H.faults shelf.new)) (Rose (D.faults desk.old) (D.faults desk.new)) (Rose (O.faults out.old) (O.faults out.new)) ending
        × LeavesOutputs (H.files shelf.old) (map string_bytes words.now) (D.made desk.old) (D.made desk.new) (O.written out.old) (O.written out.new) ending
        × Notes (N.written note.old) (N.written note.new) (N.faults note.old) (N.faults note.new) ending }
    ensures read { result ≡ Status.ReadFault → Rose (H.faults shelf.old) (H.faults shelf.new) × ReadsSeason (map string_bytes words.now) }
    ensures write { result ≡ Status.WriteFault → (doc : Doc) × Fails (docs_asked (map string_bytes words.now)) (Rose (D.faults desk.old) (D.faults desk.new)) (Rose (O.faults out.old) (O.faults out.new)) doc }

    // Where the shelf tells its files, each status that isn't a fault or want of memory comes exactly where the words and the files say so.
    ensures words { result ≡ Status.Words → asked_of (map string_bytes words.now) ≡ None }
    ensures exact { IfSome (H.files shelf.old) (λ held. Exactly result (ending_asked held (map string_bytes words.now))) }

    // A season is made unless an output fails or memory is wanting, whatever the shelf holds.
    ensures makes { MakesSeason (map string_bytes words.now) → (result ≡ Status.Ok) ⊎ ((result ≡ Status.WriteFault) ⊎ (result ≡ Status.Memory)) }

    // Of no file more is taken than the longest may have, and one buffer. Where memory is wanting, it may be that none was opened.
    ensures within { ReadsSeason (map string_bytes words.now) → (H.taken shelf.new ≤ 268_435_456 + 65_536) ⊎ ((result ≡ Status.Memory) × (shelf.new ≡ shelf.old)) }

    // What is as before.
    ensures quiet { result ≢ Status.Ok → result ≢ Status.WriteFault → (out.new ≡ out.old) × (desk.new ≡ desk.old) }
    ensures desk { docs_asked (map string_bytes words.now) ≡ [] → desk.new ≡ desk.old }
    ensures shelf { ¬ ReadsSeason (map string_bytes words.now) → shelf.new ≡ shelf.old }
    ensures around { O.around out.new ≡ O.around out.old }
    ensures note_around { N.around note.new ≡ N.around note.old }
    ensures files { H.files shelf.new ≡ H.files shelf.old }
    ensures later { H.faults shelf.old ≤ H.faults shelf.new }

    // Where the words and the files come to outputs and nothing fails, only memory can be wanting.
    ensures complete { (held : Files) → H.files shelf.old ≡ Some held → ending_asked held (map string_bytes words.now) ≡ None
        → (Rose (H.faults shelf.old) (H.faults shelf.new) → ⊥) → (Rose (D.faults desk.old) (D.faults desk.new) → ⊥) → (Rose (O.faults out.old) (O.faults out.new) → ⊥)
        → (result ≡ Status.Ok) ⊎ (result ≡ Status.Memory) }
{
    match work(alloc, words, shelf, desk, out) {
        Ok(()) => Status::Ok,
        Err(ending) => {
            write_note(note, ending);
            ending_status(ending)
        }
    }
}
