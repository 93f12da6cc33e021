//! A search for the best of many price paths. It walks the prefixes of paths in the order of lists, each before its
//! extensions, and goes on behind those alone whose bound reaches a value that some path is known to have.
//!
//! Weeks and rungs are counted from 1, the weeks done from 0.
#![tactic(auto)]

ghost use Rattle.clr_walk.specs.BestLaw.{BestOfAll};

mod order;
mod walk;

pub use walk::{Problem, Searched, is_better, search};

/// Where all tight prefixes of the value of a seed were taken, and no path has a value above the bound of a prefix that it begins
/// with, the path found is the best of all paths.
pub fn best_of_all()
    ensures { BestOfAll }
{}
