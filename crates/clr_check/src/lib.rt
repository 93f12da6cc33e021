//! The checker of certificates: what it accepts, and what an accepted certificate proves.
//!
//! Stores, weeks and rungs are counted from 1, the weeks done and the stocks from 0. Values are in units, of which a cent
//! has 10^6.
#![tactic(auto)]

mod checker;
mod conditions;
mod faults;
mod fields;
mod file;
mod heads;
mod joint;
mod keeping;
mod laws;
mod number_rows;
mod reading;
mod rest;
mod tables;
mod taking;
mod values;
mod week;

pub use checker::Checker;
pub use clr_cert::Claims;
pub use file::{CheckError, check_file};
pub use laws::{accepted_claims_hold, accepted_or_refused};
