//! The search for the best path of a season: seeds to begin with, and then the paths that begin with prefixes whose bound reaches
//! the best seed.
//!
//! Stores, weeks and rungs are counted from 1, the weeks done, stocks and demands from 0. Values are in units, of which
//! a cent has 10^6.
#![tactic(auto)]

mod best_path;
mod demands;
mod paths;
mod rows;
mod seeds;
mod totals;
mod week;

pub use best_path::{Found, search};
