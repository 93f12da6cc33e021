//! Rows of values over the live summaries, and what a recursion over them takes at each: the greatest over the rungs that
//! lead to a live summary, and the least rung that attains it.
//!
//! Weeks and rungs are counted from 1, the weeks done and the places of a row from 0. A row has one number for each place: a
//! stock, or a list of stocks.
#![tactic(auto)]

mod best;
mod rows;
mod step;
mod summaries;
mod week;

pub use rows::{reach_of, row_of};
pub use step::{Added, best_rows};
pub use summaries::week_list;
pub use week::{Week, end_rows};
