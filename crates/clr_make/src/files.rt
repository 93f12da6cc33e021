//! The files of a made season.
ghost use Rattle.clr_make.specs.Made.{IsMade, demand_rows, lines, stock_rows};
ghost use Rattle.clr_make.specs.Reads.{FilesAreHeld, ReadInFolders};
ghost use Rattle.std.specs.Prelude.{◌≡◌, ◌≤◌, ◌++◌, IfOk, OnOk};

use crate::draws::Draws;
use crate::rows::print_store;
use std::alloc::{AllocError, Global};

/// The number of stores of a made season.
const STORES: u32 = 24;

const RULES: &[u8] =
    b"{\"weeks\":12,\"base\":100,\"markdowns\":3,\"spacing\":2,\"first_cut\":50}\n";

const LADDER: &[u8] = b"rung,price\n1,60.00\n2,52.00\n3,45.00\n4,38.00\n5,30.00\n6,22.00\n";

/// The four files of a season, as their bytes.
#[derive(Drop)]
pub struct Made {
    /// rules.json
    pub rules: Vec<u8>,
    /// ladder.csv
    pub ladder: Vec<u8>,
    /// stock.csv
    pub stock: Vec<u8>,
    /// demand.csv
    pub demand: Vec<u8>,
}

/// The files of the season that a seed makes.
///
/// It has 24 stores, 12 weeks and 6 rungs, and its weights sum to 100. docs/formats.md, "Made seasons", says how the stocks and
/// the demands are drawn.
///
/// # Errors
/// Where memory is wanting.
pub fn make_files(alloc: Global, seed: u32) -> Result<Made, AllocError>
    requires { seed ≤ 999999999 }
    ensures files { IfOk result (λ made. IsMade seed made) }
    ensures reads { IfOk result (λ made. ReadInFolders made) }
{
    let rules = Vec::from_slice(alloc, RULES)?;
    let ladder = Vec::from_slice(alloc, LADDER)?;
    let mut stock = Vec::from_slice(alloc, b"store,units,salvage\n")?;
    let mut demand = Vec::from_slice(alloc, b"store,week,rung,units,weight\n")?;
    print_stores(seed, &mut stock, &mut demand)?;
    Ok(Made {
        rules,
        ladder,
        stock,
        demand,
    })
}

/// A folder with these four files and nothing else holds each of them under its name.
pub fn folder_holds_made()
    ensures { FilesAreHeld }
{}

/// Draws all stores and appends their rows of stock.csv and of demand.csv.
fn print_stores(seed: u32, stock: &mut Vec<u8>, demand: &mut Vec<u8>) -> Result<(), AllocError>
    ensures stock { OnOk result (stock.new.items ≡ stock.old.items ++ lines (stock_rows seed)) }
    ensures demand { OnOk result (demand.new.items ≡ demand.old.items ++ lines (demand_rows seed)) }
{
    let mut draws = Draws::new(seed);
    for store in 1..STORES + 1 {
        print_store(store, &mut draws, stock, demand)?;
    }
    Ok(())
}
