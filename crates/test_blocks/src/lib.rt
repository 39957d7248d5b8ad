//! Tests of sequences in blocks, and of sets of numbers: each call on its happy path, and long runs beside a plain list.
#![tactic(auto)]

#[cfg(test)]
mod beside;
#[cfg(test)]
mod calls;
#[cfg(test)]
mod counts;
#[cfg(test)]
mod numbers;
#[cfg(test)]
mod runs;
#[cfg(test)]
mod same;
