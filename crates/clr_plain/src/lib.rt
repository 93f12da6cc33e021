//! What a path earns in expectation, worked out from its definition: a sum over all outcomes. It is slow, takes no step of
//! the recursions, and serves to compare their numbers with.
#![tactic(auto)]

mod chance;
mod expected;
mod revenue;

pub use expected::expected_cents;
