//! The certificate of a plan: its text, line by line, and what it is written from.
//!
//! Stores, weeks and rungs are counted from 1, the weeks done and the stocks from 0. Values are in units, of which a cent
//! has 10^6.
#![tactic(auto)]

mod claims;
mod counts;
mod entries;
mod keys;
mod line_buffer;
mod no;
mod number;
mod place;
mod rows;
mod stocks;
mod table;
mod totals;
mod write;

pub use claims::Claims;
pub use counts::line_count;
pub use entries::Entries;
pub use line_buffer::LineBuffer;
pub use no::{No, NoKind};
pub use number::{Num, one_spelling, read_num};
pub use place::Place;
pub use write::{CertError, write_cert};
