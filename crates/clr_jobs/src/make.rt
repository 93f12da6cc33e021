// The season that a seed makes: its files, and the report on its plan.
ghost use Rattle.std.specs.Prelude.{◌≡◌, ◌⊎◌, ◌≤◌, Contains, IfOk, IsErrOf, Ok, OnErr, OnOk, Some, string_bytes};
ghost use Rattle.clr_cert.specs.Writing.{AddsFront, with_file};
ghost use Rattle.clr_io.specs.Causes.{HasCause, Rose};
ghost use Rattle.clr_make.specs.Reads.{ReadInFolders, files_in};
ghost use Rattle.clr_report.specs.declared.note.Cause.{Cause};
ghost use Rattle.clr_report.specs.declared.note.Doc.{Doc};
ghost use Rattle.clr_rules.specs.FirstPath.{SomePathObeys};
ghost use Rattle.clr_season.specs.Reads.{name_of, path_of, season_in};
ghost use Rattle.clr_season.specs.Season.{IsSeason};
ghost use Rattle.clr_season.specs.declared.reads.File.{File};
ghost use Rattle.clr_season.specs.declared.reads.SeasonError.{SeasonError};
ghost use Rattle.clr_jobs.specs.Making.{IsPlanReport, MakeReports, made_docs, made_files};
ghost use Rattle.clr_jobs.specs.Outputs.{LeavesFiles, with_files};
ghost use Rattle.clr_words.specs.Asked.{IsAsk, ask_of};

use crate::plan::plan_season;
use clr_io::{Desk, Failed, MemoryShelf, Shelf, write_whole};
use clr_make::{Made, folder_holds_made, make_files};
use clr_report::{Cause, Doc};
use clr_rules::Live;
use clr_season::{File, Season, SeasonError, read_season};
use clr_words::Asked;
use std::alloc::{AllocError, Global};

// The number of bytes that a read of the made files gives at most.
const PIECE: usize = 65_536;

/// The names of a made season's files.
#[derive(Drop)]
pub(crate) struct MadeNames {
    pub rules: String,
    pub ladder: String,
    pub stock: String,
    pub demand: String,
}

/// A made season.
#[derive(Drop)]
pub(crate) struct MadeSeason {
    /// Its files.
    pub made: Made,
    /// Their names.
    pub names: MadeNames,
    /// The report on its plan.
    pub text: Vec<u8>,
}

fn file_name(file: File) -> &'static str
    ensures { result.now ≡ name_of file }
{
    match file {
        File::Rules => "rules.json",
        File::Calendar => "calendar.csv",
        File::Ladder => "ladder.csv",
        File::Stock => "stock.csv",
        File::Demand => "demand.csv",
    }
}

// The name of a season's file in a folder.
fn file_path(alloc: Global, folder: &str, file: File) -> Result<String, AllocError>
    ensures { IfOk result (λ path. string_bytes path ≡ path_of folder.now file) }
{
    let mut path = String::from_str(alloc, folder)?;
    path.push_str("/")?;
    path.push_str(file_name(file))?;
    Ok(path)
}

// The names of the files in a folder.
fn made_names(alloc: Global, folder: &str) -> Result<MadeNames, AllocError>
    ensures rules { IfOk result (λ names. string_bytes names.rules ≡ path_of folder.now File.Rules) }
    ensures ladder { IfOk result (λ names. string_bytes names.ladder ≡ path_of folder.now File.Ladder) }
    ensures stock { IfOk result (λ names. string_bytes names.stock ≡ path_of folder.now File.Stock) }
    ensures demand { IfOk result (λ names. string_bytes names.demand ≡ path_of folder.now File.Demand) }
{
    let rules = file_path(alloc, folder, File::Rules)?;
    let ladder = file_path(alloc, folder, File::Ladder)?;
    let stock = file_path(alloc, folder, File::Stock)?;
    let demand = file_path(alloc, folder, File::Demand)?;
    Ok(MadeNames {
        rules,
        ladder,
        stock,
        demand,
    })
}

// A copy of a file's bytes under its name in a folder.
fn named(
    alloc: Global,
    folder: &str,
    file: File,
    bytes: &[u8],
) -> Result<(String, Vec<u8>), AllocError>
    ensures name { IfOk result (λ held. string_bytes held.0 ≡ path_of folder.now file) }
    ensures bytes { IfOk result (λ held. held.1.items ≡ bytes.now) }
{
    let path = file_path(alloc, folder, file)?;
    let copy = Vec::from_slice(alloc, bytes)?;
    Ok((path, copy))
}

// A shelf with copies of made files in a folder, of which no call is to fail.
fn shelf_of(alloc: Global, folder: &str, made: &Made) -> Result<MemoryShelf, AllocError>
    ensures { IfOk result (λ shelf. ⟦<MemoryShelf as Shelf>⟧.files shelf ≡ Some (files_in folder.now made.now)) }
{
    let mut files = Vec::new(alloc);
    files.push(named(alloc, folder, File::Rules, &made.rules)?)?;
    files.push(named(alloc, folder, File::Ladder, &made.ladder)?)?;
    files.push(named(alloc, folder, File::Stock, &made.stock)?)?;
    files.push(named(alloc, folder, File::Demand, &made.demand)?)?;
    Ok(MemoryShelf::new(files, PIECE, Vec::new(alloc)))
}

// The season of made files in a folder. As each folder that holds them reads to one, nothing stands against it.
fn read_made(alloc: Global, folder: &str, made: &Made) -> Result<Season, SeasonError>
    requires { ReadInFolders made.now }
    ensures season { IfOk result (λ season. season_in (files_in folder.now made.now) folder.now ≡ Ok season) }
    ensures facts { IfOk result (λ season. IsSeason season) }
    ensures some_path { IfOk result (λ season. SomePathObeys season.rules) }
    ensures ends { (error : SeasonError) → IsErrOf result error → (error ≡ SeasonError.Memory) ⊎ ((file : File) × (error ≡ SeasonError.Read file)) }
{
    folder_holds_made();
    let Ok(mut shelf) = shelf_of(alloc, folder, made) else {
        return Err(SeasonError::Memory);
    };
    read_season(alloc, &mut shelf, folder)
}

// The report on the plan of a season of which some path obeys.
fn report_on(alloc: Global, season: &Season, asked: &Asked) -> Result<Vec<u8>, Cause>
    requires facts { IsSeason season.now }
    requires some_path { SomePathObeys season.now.rules }
    requires asked { IsAsk (ask_of asked.now) }
    ensures text { IfOk result (λ text. IsPlanReport season.now (ask_of asked.now) text.items) }
    ensures ends { (ending : Cause) → IsErrOf result ending → ending ≡ Cause.Memory }
{
    let Ok(live) = Live::build(alloc, season.rules()) else {
        return Err(Cause::Memory);
    };
    match plan_season(alloc, season, &live, asked) {
        Ok(plan) => Ok(plan.text),
        Err(ending) => Err(ending),
    }
}

/// Makes the files of the seed that is asked, their names in the folder that is asked, and the report on the plan of their
/// season. The desk isn't called.
///
/// The season is read from the made files as from any others, from a shelf in memory. Nothing stands against it and some
/// path obeys, so the only error is want of memory.
pub(crate) fn make_season(alloc: Global, asked: &Asked) -> Result<MadeSeason, Cause>
    requires { IsAsk (ask_of asked.now) }
    ensures reports { IfOk result (λ season. MakeReports (ask_of asked.now) season.made season.text.items) }
    ensures files { IfOk result (λ season. made_files season ≡ files_in (string_bytes asked.now.folder) season.made) }
    ensures ends { (ending : Cause) → IsErrOf result ending → ending ≡ Cause.Memory }
{
    let folder = asked.folder.as_str();
    let Ok(names) = made_names(alloc, folder) else {
        return Err(Cause::Memory);
    };
    let Ok(made) = make_files(alloc, asked.seed) else {
        return Err(Cause::Memory);
    };
    // `Read` tells a fault of the shelf. None of its calls is to fail, so it doesn't come, though no clause says so.
    let Ok(season) = read_made(alloc, folder, &made) else {
        return Err(Cause::Memory);
    };
    match report_on(alloc, &season, asked) {
        Ok(text) => Ok(MadeSeason { made, names, text }),
        Err(ending) => Err(ending),
    }
}

// ---- on the desk

// Makes a file of this name, and writes the bytes to it.
fn write_file<D: Desk>(desk: &mut D, name: &str, bytes: &[u8]) -> Result<(), Failed>
    ensures ok { OnOk result (D.made desk.new ≡ with_file (D.made desk.old) name.now bytes.now) }
    ensures front { OnErr result (AddsFront (D.made desk.old) (D.made desk.new) name.now bytes.now) }
    ensures cause { HasCause (D.faults desk.old) (D.faults desk.new) result }
{
    desk.create(name)?;
    write_whole(desk, bytes)
}

// Makes the file of a document. It fails with the document.
fn write_document<D: Desk>(desk: &mut D, document: Doc, name: &str, bytes: &[u8]) -> Result<(), Doc>
    ensures ok { OnOk result (D.made desk.new ≡ with_file (D.made desk.old) name.now bytes.now) }
    ensures named { (doc : Doc) → IsErrOf result doc → doc ≡ document }
    ensures front { OnErr result (AddsFront (D.made desk.old) (D.made desk.new) name.now bytes.now) }
    ensures rose { OnErr result (Rose (D.faults desk.old) (D.faults desk.new)) }
    ensures later { D.faults desk.old ≤ D.faults desk.new }
{
    match write_file(desk, name, bytes) {
        Ok(()) => Ok(()),
        Err(_) => Err(document),
    }
}

/// Makes the files of a made season on the desk, in their order.
///
/// # Errors
/// The document of the file at which the desk failed: those before it stand whole, of it a front or no file, and nothing of
/// those behind it.
pub(crate) fn write_season<D: Desk>(season: &MadeSeason, desk: &mut D) -> Result<(), Doc>
    ensures ok { OnOk result (D.made desk.new ≡ with_files (D.made desk.old) (made_files season.now)) }
    ensures named { (doc : Doc) → IsErrOf result doc → Contains made_docs doc }
    ensures rose { OnErr result (Rose (D.faults desk.old) (D.faults desk.new)) }
    ensures leaves { (doc : Doc) → IsErrOf result doc → LeavesFiles made_docs (made_files season.now) (D.made desk.old) (D.made desk.new) doc }
    ensures later { D.faults desk.old ≤ D.faults desk.new }
{
    let names = &season.names;
    let made = &season.made;
    write_document(desk, Doc::Rules, names.rules.as_str(), &made.rules)?;
    write_document(desk, Doc::Ladder, names.ladder.as_str(), &made.ladder)?;
    write_document(desk, Doc::Stock, names.stock.as_str(), &made.stock)?;
    write_document(desk, Doc::Demand, names.demand.as_str(), &made.demand)
}
