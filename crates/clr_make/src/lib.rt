//! Seasons that are made from a number: a large valid input for trials and measurements.
#![tactic(auto)]

mod draws;
mod files;
mod rows;

pub use files::{Made, folder_holds_made, make_files};
