//! Tests of the stores' tables with their bound, the usage and the descent, the table of all stores together with its limits, and the
//! search, through the public calls of their crates.
#![tactic(auto)]

#[cfg(test)]
mod asks;
#[cfg(test)]
mod bounds;
#[cfg(test)]
mod exact;
#[cfg(test)]
mod limits;
#[cfg(test)]
mod places;
#[cfg(test)]
mod reads;
#[cfg(test)]
mod runs;
#[cfg(test)]
mod searches;
#[cfg(test)]
mod seasons;
#[cfg(test)]
mod shares;
