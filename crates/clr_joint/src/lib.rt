//! Two numbers between which lies what the best policy of a small chain earns, by a recursion over the live summaries and the stocks
//! of all stores that is rounded once a week, and a policy that comes within a unit of it for each week.
//!
//! Stores, weeks and rungs are counted from 1, the weeks done and the stocks from 0. Values are in units, of which a cent
//! has 10^6.
#![tactic(auto)]

mod average;
mod end;
mod fold;
mod joint;
mod laws;
mod payment;
mod week;

pub use joint::Joint;
pub use laws::joint_reads;
