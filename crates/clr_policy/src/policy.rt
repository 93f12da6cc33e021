// A policy as it is written.
ghost use Rattle.std.specs.Prelude.{◌≡◌, ◌≤◌, min};
ghost use Rattle.clr_policy.specs.Written.{held_objects, most_objects, written};

use thiserror::Error;

/// A policy as it is written: what it does next, and then. A policy of a season, as [`crate::read_policy`] answers it, has a
/// rung for each week on each of its branches, and rungs and stores of the season alone. How it is a policy over demands, and
/// what it earns: docs/model.md, "Written policies".
#[derive(Drop)]
pub enum Policy {
    /// The season is over.
    End,
    /// This rung is the next week's; then that week's demand falls.
    Rung {
        /// The rung, from 1 to the number of rungs of the ladder.
        rung: u32,
        /// What comes after the week.
        then: Box<Policy>,
    },
    /// It goes on by the stock that a store has left.
    Test {
        /// The store, from 1 to the number of stores, in their order in the season.
        store: u32,
        /// The greatest number of units left, from 0 to 2,000, with which it goes on with `yes`.
        limit: u32,
        /// What it does where the stock left is at most the limit.
        yes: Box<Policy>,
        /// What it does where the stock left is greater.
        no: Box<Policy>,
    },
}

/// Why a policy file has no reading. Branches are numbered from 1 in the order in which they end, `yes` before `no`; a
/// fault is in the branch that comes after those that ended before its place, and its number is held at 4,294,967,295. Which
/// fault is the first: docs/formats.md, "Policy files".
#[derive(Clone, Copy, Debug, PartialEq, Eq, Error)]
pub enum PolicyError {
    /// The bytes, behind one byte order mark, are no JSON text.
    #[error("no JSON text")]
    Json,
    /// The first fault is a breach of the form: a place without its object or its end, a field too many or too few, or a
    /// number that is not whole or not in its range.
    #[error("branch {branch} is not in the form")]
    Shape { branch: u32 },
    /// The first fault is a test of a store that the season doesn't have.
    #[error("branch {branch} asks for an unknown store")]
    Unknown { branch: u32 },
    /// Memory was wanting.
    #[error("out of memory")]
    Memory,
}

/// The greatest number that [`objects`] answers.
pub const MOST_OBJECTS: u64 = 1_000_000_000_000_000_000;

/// The number of rungs and tests that are written, from 0 to 10^18, and 10^18 where there are more: the number in the line
/// `objects` of docs/formats.md, "The judge report".
pub fn objects(policy: &Policy) -> u64
    ensures value { result ≡ held_objects (written policy.now) }
    ensures range { result ≤ most_objects }
{
    match policy {
        Policy::End => 0,
        Policy::Rung { then, .. } => MOST_OBJECTS.min(1 + objects(then)),
        Policy::Test { yes, no, .. } => MOST_OBJECTS.min(1 + objects(yes) + objects(no)),
    }
}
