//! What one store can earn at most where each store may choose its own rungs and is paid a multiplier for each, by a
//! recursion over the live summaries; and the bound over all policies that the stores' values make together.
//!
//! Stores, weeks and rungs are counted from 1, the weeks done and the stocks from 0. Values are in units, of which a cent
//! has 10^6.
#![tactic(auto)]

mod average;
mod bounds;
mod laws;
mod payment;
mod table;
mod week;

pub use bounds::{bound, tables};
pub use laws::table_reads;
pub use table::StoreTable;
