//! A set of numbers of 32 bits, kept as ranges: numbers that follow one another take one place together.
#![tactic(auto)]

mod joining;
mod ranges;
mod search;
mod set;

pub use set::NumberSet;
