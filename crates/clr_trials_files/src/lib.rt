//! Tests of certificates that are read from shelves in memory. The expected answers were worked by hand.
#![tactic(auto)]

#[cfg(test)]
mod answers;
#[cfg(test)]
mod asks;
#[cfg(test)]
mod certificates;
#[cfg(test)]
mod seasons;
#[cfg(test)]
mod tampering;
