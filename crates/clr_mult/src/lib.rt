//! Multipliers and usage by store, week and rung, and the step from one table of multipliers to the next.
//!
//! A multiplier is what a store is paid for a rung in a week, in units of 10^-8 of the currency; below zero it
//! pays. Over the stores these payments sum to zero, so a policy that moves the whole chain together earns the
//! same with them as without. Where the stores are free to part, a step pays a store less on the rungs that it
//! uses more than the others do on average: a subgradient step on the bound that the multipliers give.
//!
//! Stores, weeks and rungs are counted from 1.
#![tactic(auto)]

mod mult;
mod rows;
mod usage;

pub use mult::Mult;
pub use usage::Usage;
