//! A run of steps of multipliers, of which the first with the least bound over the policies of a season is kept.
//!
//! Multipliers pay each store for the rungs of each week, over all stores nothing. A store that may choose for itself takes
//! the least rung that attains its value; how often it takes each is its usage. Each step pays a store less for the rungs that
//! it uses more than the others do, which draws the stores together: a subgradient descent on the Lagrangian dual. A step may
//! raise the bound.
//!
//! Stores, weeks and rungs are counted from 1, the weeks done and the stocks from 0.
#![tactic(auto)]

mod descent;
mod masses;
mod spread;
mod sweep;

pub use descent::{Descent, descend};
pub use masses::usage;
