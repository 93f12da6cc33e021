// The files of a season's folder, each read whole and judged.
ghost use Rattle.std.specs.Prelude.{◌≡◌, ◌⊎◌, ◌+◌, ◌≤◌, ◌<◌, ℕ, IfOk, IfSome, IsErrOf, length, string_bytes};
ghost use Rattle.clr_io.specs.Causes.{Rose};
ghost use Rattle.clr_num.specs.Prices.{IsLadder};
ghost use Rattle.clr_rules.specs.Limits.{AreLimits};
ghost use Rattle.clr_rules.specs.Rules.{free_weeks};
ghost use Rattle.clr_stock.specs.Stock.{AreStores};
ghost use Rattle.clr_demand.specs.Weights.{AreWeights};
ghost use Rattle.clr_season.specs.declared.reads.File.{File};
ghost use Rattle.clr_season.specs.declared.reads.SeasonError.{SeasonError};
ghost use Rattle.clr_season.specs.Reads.{Gives, calendar_in, fetched, file_error, has_relabelling, is_scaled, limits_in, name_of, path_of, prices_in, stores_in, weights_in};

use crate::reads::{File, SeasonError};
use clr_demand::{Demand, read_demand};
use clr_io::{ReadError, Shelf, read_whole};
use clr_rules::{Calendar, Limits, free_calendar, read_calendar, read_limits};
use clr_stock::{Ladder, Stock, read_ladder, read_stock};
use clr_text::FileError;
use std::alloc::{AllocError, Global};

const MOST_BYTES: u64 = 33_554_432;

fn file_name(file: File) -> &'static str
    ensures { result.now ≡ name_of file }
{
    match file {
        File::Rules => "rules.json",
        File::Calendar => "calendar.csv",
        File::Ladder => "ladder.csv",
        File::Stock => "stock.csv",
        File::Demand => "demand.csv",
    }
}

fn path(alloc: Global, folder: &str, file: File) -> Result<String, AllocError>
    ensures { IfOk result (λ s. string_bytes s ≡ path_of folder.now file) }
{
    let mut path = String::from_str(alloc, folder)?;
    path.push_str("/")?;
    path.push_str(file_name(file))?;
    Ok(path)
}

// A reader's error, as one of the season.
fn refused(file: File, error: FileError) -> SeasonError
    ensures { result ≡ file_error file error }
{
    match error {
        FileError::Refused { row, column, why } => SeasonError::Refused {
            file,
            row,
            column,
            why,
        },
        FileError::Memory => SeasonError::Memory,
    }
}

// The bytes of a file of the folder.
#[tactic(auto, unfolding(crate::specs::Reads::fetched))]
fn fetch<H: Shelf>(
    alloc: Global,
    shelf: &mut H,
    folder: &str,
    file: File,
) -> Result<Vec<u8>, SeasonError>
    ensures gives { IfSome (H.files shelf.old) (λ files. Gives (λ v. v.items) result (fetched files folder.now file)) }
    ensures short { IfOk result (λ v. length v.items ≤ 33554432) }
    ensures read { (f : File) → IsErrOf result (SeasonError.Read f) → (f ≡ file) × Rose (H.faults shelf.old) (H.faults shelf.new) }
    ensures too_long { (f : File) → IsErrOf result (SeasonError.TooLong f) → 33554432 < H.taken shelf.new }
    ensures within { (H.taken shelf.new ≤ 33_554_432 + 65_536) ⊎ (IsErrOf result SeasonError.Memory × (shelf.new ≡ shelf.old)) }
    ensures files { H.files shelf.new ≡ H.files shelf.old }
    ensures later { H.faults shelf.old ≤ H.faults shelf.new }
{
    let Ok(path) = path(alloc, folder, file) else {
        return Err(SeasonError::Memory);
    };
    match read_whole(alloc, shelf, path.as_str(), MOST_BYTES) {
        Ok(bytes) => Ok(bytes),
        Err(ReadError::Failed) => Err(SeasonError::Read { file }),
        Err(ReadError::Absent) => Err(SeasonError::Absent { file }),
        Err(ReadError::TooLong { max: _ }) => Err(SeasonError::TooLong { file }),
        Err(ReadError::Memory) => Err(SeasonError::Memory),
    }
}

/// The numbers of rules.json.
#[tactic(auto, unfolding(crate::specs::Reads::limits_in))]
pub(crate) fn folder_limits<H: Shelf>(
    alloc: Global,
    shelf: &mut H,
    folder: &str,
) -> Result<Limits, SeasonError>
    ensures gives { IfSome (H.files shelf.old) (λ files. Gives (λ l. l) result (limits_in files folder.now)) }
    ensures facts { IfOk result AreLimits }
    ensures read { (f : File) → IsErrOf result (SeasonError.Read f) → (f ≡ File.Rules) × Rose (H.faults shelf.old) (H.faults shelf.new) }
    ensures too_long { (f : File) → IsErrOf result (SeasonError.TooLong f) → 33554432 < H.taken shelf.new }
    ensures within { (H.taken shelf.new ≤ 33_554_432 + 65_536) ⊎ (IsErrOf result SeasonError.Memory × (shelf.new ≡ shelf.old)) }
    ensures files { H.files shelf.new ≡ H.files shelf.old }
    ensures later { H.faults shelf.old ≤ H.faults shelf.new }
{
    let bytes = fetch(alloc, shelf, folder, File::Rules)?;
    match read_limits(alloc, &bytes) {
        Ok(limits) => Ok(limits),
        Err(error) => Err(refused(File::Rules, error)),
    }
}

// The windows of a season without calendar.csv.
fn free_windows(alloc: Global, weeks: u32) -> Result<Calendar, SeasonError>
    requires { weeks ≤ 52 }
    ensures windows { IfOk result (λ c. c ≡ free_weeks weeks) }
    ensures weeks { IfOk result (λ c. length c ≡ weeks) }
    ensures memory { (error : SeasonError) → IsErrOf result error → error ≡ SeasonError.Memory }
{
    match free_calendar(alloc, weeks) {
        Ok(calendar) => Ok(calendar),
        Err(_) => Err(SeasonError::Memory),
    }
}

/// The windows of the weeks: those of calendar.csv, where the rules say that there is one.
#[tactic(auto, unfolding(crate::specs::Reads::calendar_in))]
pub(crate) fn folder_calendar<H: Shelf>(
    alloc: Global,
    shelf: &mut H,
    folder: &str,
    limits: Limits,
) -> Result<Calendar, SeasonError>
    requires { AreLimits limits }
    ensures gives { IfSome (H.files shelf.old) (λ files. Gives (λ c. c) result (calendar_in files folder.now limits)) }
    ensures weeks { IfOk result (λ c. length c ≡ limits.weeks) }
    ensures read { (f : File) → IsErrOf result (SeasonError.Read f) → (f ≡ File.Calendar) × Rose (H.faults shelf.old) (H.faults shelf.new) }
    ensures too_long { (f : File) → IsErrOf result (SeasonError.TooLong f) → 33554432 < H.taken shelf.new }
    ensures within { H.taken shelf.old ≤ 33_554_432 + 65_536 → H.taken shelf.new ≤ 33_554_432 + 65_536 }
    ensures files { H.files shelf.new ≡ H.files shelf.old }
    ensures later { H.faults shelf.old ≤ H.faults shelf.new }
{
    if !limits.calendar {
        return free_windows(alloc, limits.weeks);
    }
    let bytes = fetch(alloc, shelf, folder, File::Calendar)?;
    match read_calendar(alloc, &bytes, limits.weeks) {
        Ok(calendar) => Ok(calendar),
        Err(error) => Err(refused(File::Calendar, error)),
    }
}

/// The prices of ladder.csv.
#[tactic(auto, unfolding(crate::specs::Reads::prices_in))]
pub(crate) fn folder_ladder<H: Shelf>(
    alloc: Global,
    shelf: &mut H,
    folder: &str,
) -> Result<Ladder, SeasonError>
    ensures gives { IfSome (H.files shelf.old) (λ files. Gives (λ l. l) result (prices_in files folder.now)) }
    ensures facts { IfOk result (λ l. IsLadder l) }
    ensures read { (f : File) → IsErrOf result (SeasonError.Read f) → (f ≡ File.Ladder) × Rose (H.faults shelf.old) (H.faults shelf.new) }
    ensures too_long { (f : File) → IsErrOf result (SeasonError.TooLong f) → 33554432 < H.taken shelf.new }
    ensures within { H.taken shelf.old ≤ 33_554_432 + 65_536 → H.taken shelf.new ≤ 33_554_432 + 65_536 }
    ensures files { H.files shelf.new ≡ H.files shelf.old }
    ensures later { H.faults shelf.old ≤ H.faults shelf.new }
{
    let bytes = fetch(alloc, shelf, folder, File::Ladder)?;
    match read_ladder(alloc, &bytes) {
        Ok(ladder) => Ok(ladder),
        Err(error) => Err(refused(File::Ladder, error)),
    }
}

fn reads_relabelling(limits: Limits) -> bool
    ensures { result ≡ has_relabelling limits }
{
    limits.version >= 2
}

/// The stores of stock.csv, with their cost of relabelling from version 2 on.
#[tactic(auto, unfolding(crate::specs::Reads::stores_in))]
pub(crate) fn folder_stock<H: Shelf>(
    alloc: Global,
    shelf: &mut H,
    folder: &str,
    limits: Limits,
) -> Result<Stock, SeasonError>
    ensures gives { IfSome (H.files shelf.old) (λ files. Gives (λ s. s) result (stores_in files folder.now limits)) }
    ensures some { IfOk result (λ s. 1 ≤ length s) }
    ensures facts { IfOk result (λ s. AreStores s) }
    ensures read { (f : File) → IsErrOf result (SeasonError.Read f) → (f ≡ File.Stock) × Rose (H.faults shelf.old) (H.faults shelf.new) }
    ensures too_long { (f : File) → IsErrOf result (SeasonError.TooLong f) → 33554432 < H.taken shelf.new }
    ensures within { H.taken shelf.old ≤ 33_554_432 + 65_536 → H.taken shelf.new ≤ 33_554_432 + 65_536 }
    ensures files { H.files shelf.new ≡ H.files shelf.old }
    ensures later { H.faults shelf.old ≤ H.faults shelf.new }
{
    let bytes = fetch(alloc, shelf, folder, File::Stock)?;
    match read_stock(alloc, &bytes, reads_relabelling(limits)) {
        Ok(stock) => Ok(stock),
        Err(error) => Err(refused(File::Stock, error)),
    }
}

fn scales(limits: Limits) -> bool
    ensures { result ≡ is_scaled limits }
{
    limits.version == 3
}

/// The weights of demand.csv for these stores, scaled to the base in version 3.
#[tactic(auto, unfolding(crate::specs::Reads::weights_in))]
pub(crate) fn folder_demand<H: Shelf>(
    alloc: Global,
    shelf: &mut H,
    folder: &str,
    limits: Limits,
    ladder: &Ladder,
    stock: &Stock,
) -> Result<Demand, SeasonError>
    requires limits { AreLimits limits }
    requires stores { 1 ≤ length stock.now }
    ensures gives { IfSome (H.files shelf.old) (λ files. Gives (λ d. d) result (weights_in files folder.now limits ladder.now stock.now)) }
    ensures facts { IfOk result (λ d. AreWeights (length stock.now) limits.weeks (length ladder.now) limits.base d) }
    ensures read { (f : File) → IsErrOf result (SeasonError.Read f) → (f ≡ File.Demand) × Rose (H.faults shelf.old) (H.faults shelf.new) }
    ensures too_long { (f : File) → IsErrOf result (SeasonError.TooLong f) → 33554432 < H.taken shelf.new }
    ensures within { H.taken shelf.old ≤ 33_554_432 + 65_536 → H.taken shelf.new ≤ 33_554_432 + 65_536 }
    ensures files { H.files shelf.new ≡ H.files shelf.old }
    ensures later { H.faults shelf.old ≤ H.faults shelf.new }
{
    let bytes = fetch(alloc, shelf, folder, File::Demand)?;
    let rungs = ladder.len();
    match read_demand(
        alloc,
        &bytes,
        stock.names(),
        limits.weeks,
        rungs,
        limits.base,
        scales(limits),
    ) {
        Ok(demand) => Ok(demand),
        Err(error) => Err(refused(File::Demand, error)),
    }
}
