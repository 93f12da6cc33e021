//! Tests of numbers, averages and multipliers, of files and sinks in memory, of the readers of fields, tables, rules, calendar,
//! ladder, stock and demand, of the rules of the next week, and of the words of the command line, through the public calls of their
//! crates. Tests stand in crates of their own, since a crate with tests is proved twice.
#![tactic(auto)]

#[cfg(test)]
mod averages;
#[cfg(test)]
mod cases;
#[cfg(test)]
mod edges;
#[cfg(test)]
mod fields;
#[cfg(test)]
mod lines;
#[cfg(test)]
mod multipliers;
#[cfg(test)]
mod numbers;
#[cfg(test)]
mod rules;
#[cfg(test)]
mod rules_files;
#[cfg(test)]
mod stores;
#[cfg(test)]
mod tables;
#[cfg(test)]
mod weights;
#[cfg(test)]
mod words;
