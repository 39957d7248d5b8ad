//! Tests of the ends of a link: each call on its happy path, what is refused, and both ends face to face.
#![tactic(auto)]

#[cfg(test)]
mod both;
#[cfg(test)]
mod receiving;
#[cfg(test)]
mod same;
#[cfg(test)]
mod sending;
#[cfg(test)]
mod session;
