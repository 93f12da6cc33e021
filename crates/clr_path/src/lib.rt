//! The value of a price path: for each store, after each number of weeks, and at each stock that it may have.
//!
//! Stores, weeks and rungs are counted from 1, the weeks done and the stocks from 0. Values are in units, of
//! which a cent has 10^6.
#![tactic(auto)]

mod rows;
mod table;

pub use table::{PathTable, path_encloses};
