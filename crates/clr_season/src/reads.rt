// The season of a folder.
ghost use Rattle.std.specs.Prelude.{◌≡◌, ◌⊎◌, ◌+◌, ◌≤◌, ◌<◌, IfOk, IfSome, IsErrOf};
ghost use Rattle.clr_io.specs.Causes.{Rose};
ghost use Rattle.clr_season.specs.Season.{IsSeason};
ghost use Rattle.clr_season.specs.Reads.{Gives, season_in};

use crate::files::{folder_calendar, folder_demand, folder_ladder, folder_limits, folder_stock};
use crate::season::Season;
use crate::whole::season_of_parts;
use clr_io::Shelf;
use clr_text::Why;
use std::alloc::Global;
use thiserror::Error;

/// The files of a season's folder, in the order in which they are read.
#[derive(Clone, Copy, Debug, PartialEq, Eq)]
pub enum File {
    /// The rules, rules.json.
    Rules,
    /// The rungs that each week may have, and which weeks are frozen, calendar.csv.
    Calendar,
    /// The prices, ladder.csv.
    Ladder,
    /// The stores and their stock, stock.csv.
    Stock,
    /// The demand weights, demand.csv.
    Demand,
}

/// Why a folder gives no season.
#[derive(Clone, Copy, Debug, PartialEq, Eq, Error)]
pub enum SeasonError {
    /// The shelf failed while it opened or read this file.
    #[error("{file:?} could not be read")]
    Read {
        file: File,
    },
    /// The shelf holds no such file.
    #[error("{file:?} is absent")]
    Absent {
        file: File,
    },
    /// The file has more than 33,554,432 bytes.
    #[error("{file:?} is too long")]
    TooLong {
        file: File,
    },
    /// The file breaks a rule of its form, first at this row and column; either is 0 where the cause has none.
    #[error("{file:?} is refused at row {row}, column {column}: {why:?}")]
    Refused {
        file: File,
        row: u32,
        column: u32,
        why: Why,
    },
    /// The tables of the season would have so many cells, and that is more than 16,000,000.
    #[error("{found} cells are too many")]
    Cells {
        found: u64,
    },
    /// Memory was wanting.
    #[error("out of memory")]
    Memory,
}

/// The season of a folder: of its files rules.json, calendar.csv (where the rules say that there is one), ladder.csv,
/// stock.csv and demand.csv, in this order. Each is held, not too long and read before the next is opened. The season's
/// version is that of rules.json: from version 2 on stock.csv has a cost of relabelling, and in version 3 the weights are
/// scaled to the base. The rules of the files are those of docs/formats.md, "The files of a season".
///
/// # Errors
/// The first thing that stands against the season: file by file `Read` (only where the shelf's faults rose), `Absent`,
/// `TooLong` (only where more than 33,554,432 bytes were taken) and `Refused`, the first refusal of the file's content;
/// and behind all files `Cells`. `Memory` may come anywhere. Whatever comes, the shelf stands where its last call left
/// it.
#[tactic(auto, unfolding(crate::specs::Reads::season_in))]
pub fn read_season<H: Shelf>(
    alloc: Global,
    shelf: &mut H,
    folder: &str,
) -> Result<Season, SeasonError>
    ensures gives { IfSome (H.files shelf.old) (λ files. Gives (λ s. s) result (season_in files folder.now)) }
    ensures facts { IfOk result (λ s. IsSeason s) }

    // Over every shelf, whether it tells its files or not.
    ensures read { (f : File) → IsErrOf result (SeasonError.Read f) → Rose (H.faults shelf.old) (H.faults shelf.new) }
    ensures too_long { (f : File) → IsErrOf result (SeasonError.TooLong f) → 33554432 < H.taken shelf.new }

    // It stops once more than the limit was taken of a file: within one more buffer. Where memory is wanting, it may be that none
    // was opened.
    ensures within { (H.taken shelf.new ≤ 33_554_432 + 65_536) ⊎ (IsErrOf result SeasonError.Memory × (shelf.new ≡ shelf.old)) }

    ensures files { H.files shelf.new ≡ H.files shelf.old }
    ensures later { H.faults shelf.old ≤ H.faults shelf.new }
{
    let limits = folder_limits(alloc, shelf, folder)?;
    let calendar = folder_calendar(alloc, shelf, folder, limits)?;
    let ladder = folder_ladder(alloc, shelf, folder)?;
    let stock = folder_stock(alloc, shelf, folder, limits)?;
    let demand = folder_demand(alloc, shelf, folder, limits, &ladder, &stock)?;
    season_of_parts(alloc, limits, calendar, &ladder, stock, demand)
}
