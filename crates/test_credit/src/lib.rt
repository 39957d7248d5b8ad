//! Tests of what a link counts: each call on its happy path, and credit, counts and sizes at the ends of their ranges.
#![tactic(auto)]

#[cfg(test)]
mod assembly;
#[cfg(test)]
mod both;
#[cfg(test)]
mod parts;
#[cfg(test)]
mod receiver;
#[cfg(test)]
mod refused;
#[cfg(test)]
mod same;
#[cfg(test)]
mod sender;
