//! What a plan writes as its certificate is accepted, with the plan's own numbers.
#![tactic(auto)]

mod laws;

pub use laws::planned_is_accepted;
