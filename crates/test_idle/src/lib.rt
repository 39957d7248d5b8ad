//! Tests of the clock for idle time-outs: each call on its happy path, and times and time-outs at the ends of their
//! ranges.
#![tactic(auto)]

#[cfg(test)]
mod calls;
#[cfg(test)]
mod ends;
#[cfg(test)]
mod same;
#[cfg(test)]
mod times;
