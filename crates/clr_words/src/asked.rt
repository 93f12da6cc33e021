// What is asked, and why nothing is.
use thiserror::Error;

/// What is to be done with the season of a folder.
#[derive(Clone, Copy, Debug, PartialEq, Eq)]
pub enum Job {
    /// Find a price path and a bound, and report them.
    Plan,
    /// Check a certificate.
    Check,
    /// Value a written policy.
    Judge,
    /// Make a season's files, and report its plan.
    Make,
}

/// What the words ask.
#[derive(Debug, Drop)]
pub struct Asked {
    /// What is to be done.
    pub job: Job,
    /// The folder of the season, as it was written.
    pub folder: String,
    /// `--steps`: how many steps the descent takes, 0 to 100. 20 where it isn't given.
    pub steps: u32,
    /// `--step`: the size of the descent's steps, 1 to 10. 1 where it isn't given.
    pub step: u32,
    /// `--nodes`: how many tight prefixes the search takes, 0 to 10,000,000. 100,000 where it
    /// isn't given.
    pub nodes: u64,
    /// `--cert`: the name of the certificate, as it was written. `-`, which stands for no name,
    /// where it isn't given.
    pub cert: String,
    /// `--seed`: the number from which a season is made, 0 to 999,999,999. 1 where it isn't given.
    pub seed: u32,
}

/// Why there is no answer to what the words ask.
#[derive(Clone, Copy, Debug, PartialEq, Eq, Error)]
pub enum WordsError {
    /// The words ask nothing: `clap` refuses them, or the job is none of the four.
    #[error("the words ask nothing")]
    Faulty,
    /// Memory was wanting.
    #[error("out of memory")]
    Memory,
}
