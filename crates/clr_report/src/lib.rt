//! The texts that the program writes: reports and notes.
#![tactic(auto)]

mod check;
mod columns;
mod judge;
mod note;
mod pieces;
mod plan;
mod refusal;
mod verdict;

pub use check::check_text;
pub use judge::judge_text;
pub use note::{Cause, Doc, note_text};
pub use plan::{PlanFacts, plan_text, plan_text_determines};
