//! What the words of the command line ask.
//!
//! The command is `clearance JOB FOLDER`, with the options `--steps`, `--step`, `--nodes`, `--cert`
//! and `--seed`, each with a value of its own where it isn't given. The crate `clap` decides what
//! words it takes, and [`read_words`] answers what they ask, an [`Asked`].
#![tactic(auto)]

mod asked;
mod line;
mod words;

pub use asked::{Asked, Job, WordsError};
pub use words::read_words;
