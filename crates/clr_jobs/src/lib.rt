//! The jobs of the program: what each reads, computes and writes, and how it ends.
#![tactic(auto)]

mod check;
mod entries;
mod exact;
mod jobs;
mod judge;
mod make;
mod plan;

pub use jobs::work;
