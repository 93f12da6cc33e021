//! The averages of a row of values over a week's demands, rounded in a direction.
//!
//! A row has one number for each stock, counted from 0. A demand sells what it can of a stock, each unit
//! sold earns the same, and what is left has its value in the row of the week after.
#![tactic(auto)]

mod row;
mod total;

pub use row::{average_row, average_values, lower_values};
pub use total::Total;
