// What is asked is made ready, and then written.

ghost use Rattle.std.specs.Prelude.{◌≡◌, ◌≢◌, ◌⊎◌, ◌+◌, ◌≤◌, [], Contains, IfOk, IfSome, IsErrOf, OnOk, Ok, Some, None, Option, map, string_bytes};
ghost use Rattle.clr_io.specs.Causes.{Rose};
ghost use Rattle.clr_io.specs.Files.{Files};
ghost use Rattle.clr_report.specs.declared.note.Cause.{Cause};
ghost use Rattle.clr_report.specs.declared.note.Doc.{Doc};
ghost use Rattle.clr_season.specs.Reads.{season_in};
ghost use Rattle.clr_season.specs.Season.{IsSeason};
ghost use Rattle.clr_words.specs.Asked.{IsAsk, ask_of, asked_of};
ghost use Rattle.clr_words.specs.declared.asked.Job.{Job};
ghost use Rattle.clr_jobs.specs.Outputs.{Fails, Leaves, LeavesFiles, Wrote, with_files};
ghost use Rattle.clr_jobs.specs.Ready.{IsPlanReady, IsReady, docs_ready, outputs_of, plan_docs, plan_outputs};
ghost use Rattle.clr_jobs.specs.Runs.{Caused, EndsBefore, Gives, IsSeasonError, LeavesOutputs, ReadEnds, ReadsSeason, Writes, doc_of, docs_asked, docs_by, ending_asked, ending_by, ends_by};

use crate::check::check_season;
use crate::judge::judge_season;
use crate::make::{MadeSeason, make_season, write_season};
use crate::plan::{Plan, plan_season};
use clr_cert::{CertError, write_cert};
use clr_io::{Desk, Shelf, Sink, write_whole};
use clr_report::{Cause, Doc};
use clr_rules::Live;
use clr_season::{File, Season, SeasonError, read_season};
use clr_words::{Asked, Job, WordsError, read_words};
use std::alloc::Global;

// ---- what is read

// What the words ask.
fn read_asked(alloc: Global, words: &[String]) -> Result<Asked, Cause>
    ensures asked { IfOk result (λ asked. asked_of (map string_bytes words.now) ≡ Some (ask_of asked)) }
    ensures facts { IfOk result (λ asked. IsAsk (ask_of asked)) }
    ensures ends { (ending : Cause) → IsErrOf result ending → (ending ≡ Cause.Memory) ⊎ ((ending ≡ Cause.Words) × (asked_of (map string_bytes words.now) ≡ None)) }
{
    match read_words(alloc, words) {
        Ok(asked) => Ok(asked),
        Err(WordsError::Faulty) => Err(Cause::Words),
        Err(WordsError::Memory) => Err(Cause::Memory),
    }
}

// A file as the notes name it.
fn doc(file: File) -> Doc
    ensures { result ≡ doc_of file }
{
    match file {
        File::Rules => Doc::Rules,
        File::Calendar => Doc::Calendar,
        File::Ladder => Doc::Ladder,
        File::Stock => Doc::Stock,
        File::Demand => Doc::Demand,
    }
}

// How a run ends by an error of its season.
fn unread(error: SeasonError) -> Cause
    ensures { result ≡ ending_by error }
{
    match error {
        SeasonError::Read { file } => Cause::ReadFault { doc: doc(file) },
        SeasonError::Absent { file } => Cause::Absent { doc: doc(file) },
        SeasonError::TooLong { file } => Cause::TooLong {
            doc: doc(file),
            max: 33_554_432,
        },
        SeasonError::Refused {
            file,
            row,
            column,
            why,
        } => Cause::Refused {
            doc: doc(file),
            row,
            column,
            why,
        },
        SeasonError::Cells { found } => Cause::Cells { found },
        SeasonError::Memory => Cause::Memory,
    }
}

// The season of the folder that is asked.
fn asked_season<H: Shelf>(alloc: Global, asked: &Asked, shelf: &mut H) -> Result<Season, Cause>
    ensures season { IfOk result (λ season. IfSome (H.files shelf.old) (λ held. season_in held (string_bytes asked.now.folder) ≡ Ok season)) }
    ensures facts { IfOk result (λ season. IsSeason season) }
    ensures ends { (ending : Cause) → IsErrOf result ending → IsSeasonError (H.files shelf.old) (string_bytes asked.now.folder) (H.taken shelf.new) (Rose (H.faults shelf.old) (H.faults shelf.new)) ending }
    ensures within { (H.taken shelf.new ≤ 33_554_432 + 65_536) ⊎ (IsErrOf result Cause.Memory × (shelf.new ≡ shelf.old)) }
    ensures files { H.files shelf.new ≡ H.files shelf.old }
    ensures later { H.faults shelf.old ≤ H.faults shelf.new }
{
    match read_season(alloc, shelf, asked.folder.as_str()) {
        Ok(season) => Ok(season),
        Err(error) => Err(unread(error)),
    }
}

// ---- what stands ready to be written

// A plan, the season that it is of, and what was asked.
#[derive(Drop)]
struct PlanReady {
    season: Season,
    live: Live,
    plan: Plan,
    asked: Asked,
}

// What is to be written.
#[derive(Drop)]
enum Ready {
    // A plan's certificate, where one is asked, and its report.
    Plan { ready: PlanReady },
    // A report.
    Report { text: Vec<u8> },
    // The files of a made season, and the report on its plan.
    Make { season: MadeSeason },
}

// The report that is to be written.
fn report(ready: &Ready) -> &[u8]
    ensures { result.now ≡ (outputs_of ready.now).report }
{
    match ready {
        Ready::Plan { ready } => &ready.plan.text,
        Ready::Report { text } => text,
        Ready::Make { season } => &season.text,
    }
}

// The plan that is asked.
fn ready_plan<H: Shelf>(alloc: Global, asked: Asked, shelf: &mut H) -> Result<Ready, Cause>
    requires job { asked.job ≡ Job.Plan }
    requires facts { IsAsk (ask_of asked) }
    ensures gives { IfOk result (λ ready. Gives (H.files shelf.old) (ask_of asked) (outputs_of ready)) }
    ensures docs { IfOk result (λ ready. docs_ready ready ≡ docs_by asked.job (string_bytes asked.cert)) }
    ensures passes { IfOk result (λ ready. IfSome (H.files shelf.old) (λ held. ends_by held (ask_of asked) ≡ None)) }
    ensures ready { IfOk result (λ ready. IsReady ready) }
    ensures ends { (ending : Cause) → IsErrOf result ending → ReadEnds (H.files shelf.old) (ask_of asked) (H.taken shelf.new) (Rose (H.faults shelf.old) (H.faults shelf.new)) ending }
    ensures within { (H.taken shelf.new ≤ 268_435_456 + 65_536) ⊎ (IsErrOf result Cause.Memory × (shelf.new ≡ shelf.old)) }
    ensures files { H.files shelf.new ≡ H.files shelf.old }
    ensures later { H.faults shelf.old ≤ H.faults shelf.new }
{
    let season = asked_season(alloc, &asked, shelf)?;
    let Ok(live) = Live::build(alloc, season.rules()) else {
        return Err(Cause::Memory);
    };
    let plan = plan_season(alloc, &season, &live, &asked)?;
    let ready = PlanReady {
        season,
        live,
        plan,
        asked,
    };
    Ok(Ready::Plan { ready })
}

// The report on the certificate that is asked.
fn ready_check<H: Shelf>(alloc: Global, asked: &Asked, shelf: &mut H) -> Result<Ready, Cause>
    requires job { asked.now.job ≡ Job.Check }
    ensures gives { IfOk result (λ ready. Gives (H.files shelf.old) (ask_of asked.now) (outputs_of ready)) }
    ensures docs { IfOk result (λ ready. docs_ready ready ≡ docs_by asked.now.job (string_bytes asked.now.cert)) }
    ensures passes { IfOk result (λ ready. IfSome (H.files shelf.old) (λ held. ends_by held (ask_of asked.now) ≡ None)) }
    ensures ready { IfOk result (λ ready. IsReady ready) }
    ensures ends { (ending : Cause) → IsErrOf result ending → ReadEnds (H.files shelf.old) (ask_of asked.now) (H.taken shelf.new) (Rose (H.faults shelf.old) (H.faults shelf.new)) ending }
    ensures within { (H.taken shelf.new ≤ 268_435_456 + 65_536) ⊎ (IsErrOf result Cause.Memory × (shelf.new ≡ shelf.old)) }
    ensures files { H.files shelf.new ≡ H.files shelf.old }
    ensures later { H.faults shelf.old ≤ H.faults shelf.new }
{
    let season = asked_season(alloc, asked, shelf)?;
    let text = check_season(alloc, &season, asked, shelf)?;
    Ok(Ready::Report { text })
}

// The report on the policy of the folder that is asked.
fn ready_judge<H: Shelf>(alloc: Global, asked: &Asked, shelf: &mut H) -> Result<Ready, Cause>
    requires job { asked.now.job ≡ Job.Judge }
    ensures gives { IfOk result (λ ready. Gives (H.files shelf.old) (ask_of asked.now) (outputs_of ready)) }
    ensures docs { IfOk result (λ ready. docs_ready ready ≡ docs_by asked.now.job (string_bytes asked.now.cert)) }
    ensures passes { IfOk result (λ ready. IfSome (H.files shelf.old) (λ held. ends_by held (ask_of asked.now) ≡ None)) }
    ensures ready { IfOk result (λ ready. IsReady ready) }
    ensures ends { (ending : Cause) → IsErrOf result ending → ReadEnds (H.files shelf.old) (ask_of asked.now) (H.taken shelf.new) (Rose (H.faults shelf.old) (H.faults shelf.new)) ending }
    ensures within { (H.taken shelf.new ≤ 268_435_456 + 65_536) ⊎ (IsErrOf result Cause.Memory × (shelf.new ≡ shelf.old)) }
    ensures files { H.files shelf.new ≡ H.files shelf.old }
    ensures later { H.faults shelf.old ≤ H.faults shelf.new }
{
    let season = asked_season(alloc, asked, shelf)?;
    let text = judge_season(alloc, &season, asked, shelf)?;
    Ok(Ready::Report { text })
}

// The season of the seed that is asked.
fn ready_make(alloc: Global, asked: &Asked) -> Result<Ready, Cause>
    requires job { asked.now.job ≡ Job.Make }
    requires facts { IsAsk (ask_of asked.now) }
    ensures gives { IfOk result (λ ready. (files : Option Files) → Gives files (ask_of asked.now) (outputs_of ready)) }
    ensures docs { IfOk result (λ ready. docs_ready ready ≡ docs_by asked.now.job (string_bytes asked.now.cert)) }
    ensures ready { IfOk result (λ ready. IsReady ready) }
    ensures ends { (ending : Cause) → IsErrOf result ending → ending ≡ Cause.Memory }
{
    let season = make_season(alloc, asked)?;
    Ok(Ready::Make { season })
}

// What the words ask, ready to be written.
fn prepare<H: Shelf>(alloc: Global, words: &[String], shelf: &mut H) -> Result<Ready, Cause>
    ensures writes { IfOk result (λ ready. Writes (H.files shelf.old) (map string_bytes words.now) (λ outputs. outputs ≡ outputs_of ready)) }
    ensures docs { IfOk result (λ ready. docs_ready ready ≡ docs_asked (map string_bytes words.now)) }
    ensures passes { IfOk result (λ ready. IfSome (H.files shelf.old) (λ held. ending_asked held (map string_bytes words.now) ≡ None)) }
    ensures ready { IfOk result (λ ready. IsReady ready) }
    ensures ends { (ending : Cause) → IsErrOf result ending → EndsBefore (H.files shelf.old) (map string_bytes words.now) (H.taken shelf.new) (Rose (H.faults shelf.old) (H.faults shelf.new)) ending }
    ensures within { ReadsSeason (map string_bytes words.now) → (H.taken shelf.new ≤ 268_435_456 + 65_536) ⊎ (IsErrOf result Cause.Memory × (shelf.new ≡ shelf.old)) }
    ensures shelf { ¬ ReadsSeason (map string_bytes words.now) → shelf.new ≡ shelf.old }
    ensures files { H.files shelf.new ≡ H.files shelf.old }
    ensures later { H.faults shelf.old ≤ H.faults shelf.new }
{
    let asked = read_asked(alloc, words)?;
    match asked.job {
        Job::Plan => ready_plan(alloc, asked, shelf),
        Job::Check => ready_check(alloc, &asked, shelf),
        Job::Judge => ready_judge(alloc, &asked, shelf),
        Job::Make => ready_make(alloc, &asked),
    }
}

// ---- writing

// Makes the certificate on the desk, where one is asked.
fn write_plan<D: Desk>(alloc: Global, ready: &PlanReady, desk: &mut D) -> Result<(), Cause>
    requires { IsPlanReady ready.now }
    ensures ok { OnOk result (D.made desk.new ≡ with_files (D.made desk.old) (plan_outputs ready.now).made) }
    ensures none { plan_docs ready.now ≡ [] → desk.new ≡ desk.old }
    ensures ends { (ending : Cause) → IsErrOf result ending → (ending ≡ Cause.Memory) ⊎ ((doc : Doc) × (ending ≡ Cause.WriteFault doc)) }
    ensures memory { IsErrOf result Cause.Memory → desk.new ≡ desk.old }
    ensures failed { (doc : Doc) → IsErrOf result (Cause.WriteFault doc) → Contains (plan_docs ready.now) doc × Rose (D.faults desk.old) (D.faults desk.new) }
    ensures leaves { (doc : Doc) → IsErrOf result (Cause.WriteFault doc) → LeavesFiles (plan_docs ready.now) (plan_outputs ready.now).made (D.made desk.old) (D.made desk.new) doc }
    ensures later { D.faults desk.old ≤ D.faults desk.new }
{
    let name = ready.asked.cert.as_str();
    if name == "-" {
        return Ok(());
    }
    let entries = &ready.plan.entries;
    match write_cert(alloc, &ready.season, &ready.live, entries, name, desk) {
        Ok(()) => Ok(()),
        Err(CertError::Failed) => Err(Cause::WriteFault {
            doc: Doc::Certificate,
        }),
        Err(CertError::Memory) => Err(Cause::Memory),
    }
}

// Makes the files on the desk.
fn write_made<D: Desk>(alloc: Global, ready: &Ready, desk: &mut D) -> Result<(), Cause>
    requires { IsReady ready.now }
    ensures ok { OnOk result (D.made desk.new ≡ with_files (D.made desk.old) (outputs_of ready.now).made) }
    ensures none { docs_ready ready.now ≡ [] → desk.new ≡ desk.old }
    ensures ends { (ending : Cause) → IsErrOf result ending → (ending ≡ Cause.Memory) ⊎ ((doc : Doc) × (ending ≡ Cause.WriteFault doc)) }
    ensures memory { IsErrOf result Cause.Memory → desk.new ≡ desk.old }
    ensures failed { (doc : Doc) → IsErrOf result (Cause.WriteFault doc) → Contains (docs_ready ready.now) doc × Rose (D.faults desk.old) (D.faults desk.new) }
    ensures leaves { (doc : Doc) → IsErrOf result (Cause.WriteFault doc) → LeavesFiles (docs_ready ready.now) (outputs_of ready.now).made (D.made desk.old) (D.made desk.new) doc }
    ensures later { D.faults desk.old ≤ D.faults desk.new }
{
    match ready {
        Ready::Plan { ready } => write_plan(alloc, ready, desk),
        Ready::Report { .. } => Ok(()),
        Ready::Make { season } => match write_season(season, desk) {
            Ok(()) => Ok(()),
            Err(doc) => Err(Cause::WriteFault { doc }),
        },
    }
}

// Makes the files on the desk, and then writes the report.
fn write_outputs<D: Desk, O: Sink>(
    alloc: Global,
    ready: &Ready,
    desk: &mut D,
    out: &mut O,
) -> Result<(), Cause>
    requires { IsReady ready.now }
    ensures ok { OnOk result (Wrote (outputs_of ready.now) (D.made desk.old) (D.made desk.new) (O.written out.old) (O.written out.new)) }
    ensures none { docs_ready ready.now ≡ [] → desk.new ≡ desk.old }
    ensures ends { (ending : Cause) → IsErrOf result ending → (ending ≡ Cause.Memory) ⊎ ((doc : Doc) × (ending ≡ Cause.WriteFault doc)) }
    ensures memory { IsErrOf result Cause.Memory → (out.new ≡ out.old) × (desk.new ≡ desk.old) }
    ensures failed { (doc : Doc) → IsErrOf result (Cause.WriteFault doc) → Fails (docs_ready ready.now) (Rose (D.faults desk.old) (D.faults desk.new)) (Rose (O.faults out.old) (O.faults out.new)) doc }
    ensures leaves { (doc : Doc) → IsErrOf result (Cause.WriteFault doc) → Leaves (docs_ready ready.now) (outputs_of ready.now) (D.made desk.old) (D.made desk.new) (O.written out.old) (O.written out.new) doc }
    ensures around { O.around out.new ≡ O.around out.old }
{
    write_made(alloc, ready, desk)?;
    match write_whole(out, report(ready)) {
        Ok(()) => Ok(()),
        Err(_) => Err(Cause::WriteFault { doc: Doc::Report }),
    }
}

/// Makes what the words ask ready, and writes it: first the files that the job makes on the desk, in their order, and then the
/// report. The words are those behind the program's name.
///
/// # Errors
/// The cause that keeps a run from its whole report, the first in this order: `Words` where the words ask nothing; what stands
/// against the season's files, and then against the job's further file; `NoPath` where no path of a plan's season obeys; and
/// `WriteFault` with the document at which the desk or the sink failed. The outputs before that one stand whole, of it a front
/// or no file, and nothing of a later one; after every other cause nothing was written. `Memory` may come anywhere before the
/// first call of the desk or of the sink.
pub fn work<H: Shelf, D: Desk, O: Sink>(
    alloc: Global,
    words: &[String],
    shelf: &mut H,
    desk: &mut D,
    out: &mut O,
) -> Result<(), Cause>
    ensures ok { OnOk result (Writes (H.files shelf.old) (map string_bytes words.now) (λ outputs. Wrote outputs (D.made desk.old) (D.made desk.new) (O.written out.old) (O.written out.new))) }
    ensures passes { OnOk result (IfSome (H.files shelf.old) (λ held. ending_asked held (map string_bytes words.now) ≡ None)) }
    ensures caused { (ending : Cause) → IsErrOf result ending → Caused (H.files shelf.old) (map string_bytes words.now) (H.taken shelf.new) (Rose (H.faults shelf.old) (H.faults shelf.new)) (Rose (D.faults desk.old) (D.faults desk.new)) (Rose (O.faults out.old) (O.faults out.new)) ending }
    ensures leaves { (ending : Cause) → IsErrOf result ending → LeavesOutputs (H.files shelf.old) (map string_bytes words.now) (D.made desk.old) (D.made desk.new) (O.written out.old) (O.written out.new) ending }
    ensures quiet { (ending : Cause) → IsErrOf result ending → ((doc : Doc) → ending ≢ Cause.WriteFault doc) → (out.new ≡ out.old) × (desk.new ≡ desk.old) }
    ensures desk { docs_asked (map string_bytes words.now) ≡ [] → desk.new ≡ desk.old }
    ensures around { O.around out.new ≡ O.around out.old }
    ensures within { ReadsSeason (map string_bytes words.now) → (H.taken shelf.new ≤ 268_435_456 + 65_536) ⊎ (IsErrOf result Cause.Memory × (shelf.new ≡ shelf.old)) }
    ensures shelf { ¬ ReadsSeason (map string_bytes words.now) → shelf.new ≡ shelf.old }
    ensures files { H.files shelf.new ≡ H.files shelf.old }
    ensures later { H.faults shelf.old ≤ H.faults shelf.new }
{
    let ready = prepare(alloc, words, shelf)?;
    write_outputs(alloc, &ready, desk, out)
}
