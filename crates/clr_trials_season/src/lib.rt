//! Tests of certificates, of the made seasons, of what policies earn and of their files, and of a path's values and the notes,
//! through the public calls of their crates.
#![tactic(auto)]

#[cfg(test)]
mod judging;
#[cfg(test)]
mod made;
#[cfg(test)]
mod notes;
#[cfg(test)]
mod outcomes;
#[cfg(test)]
mod reading;
#[cfg(test)]
mod seasons;
#[cfg(test)]
mod spelling;
#[cfg(test)]
mod values;
#[cfg(test)]
mod walking;
#[cfg(test)]
mod worked;
#[cfg(test)]
mod writing;
