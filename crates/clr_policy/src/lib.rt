//! Policy files, and what a policy earns.
//!
//! A policy chooses each week's rung by the stocks that the stores have left. Stores, weeks, rungs and branches are
//! counted from 1, stocks from 0. Prices and costs are in cents, values in units of 10^-8 of the currency, of which a cent
//! has 10^6. Weights are whole numbers out of the season's base.
//!
//! docs/formats.md, "Policy files", says what such a file is, and docs/model.md, "Written policies", what a policy does and
//! earns.
#![tactic(auto)]

mod branches;
mod judged;
mod policy;
mod policy_file;
mod stock_lists;
mod values;

pub use judged::{JudgeError, judge, policies_valued};
pub use policy::{Policy, PolicyError, objects};
pub use policy_file::read_policy;
