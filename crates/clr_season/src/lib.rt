//! The season that a folder's files read to.
#![tactic(auto)]

mod files;
mod reads;
mod season;
mod whole;

pub use reads::{File, SeasonError, read_season};
pub use season::Season;
