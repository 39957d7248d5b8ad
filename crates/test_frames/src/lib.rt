//! Tests of AMQP 1.0 values, performatives and frames: what needs their types. What can be said by lines stands in the rows of `rows_codec`.
#![tactic(auto)]

#[cfg(test)]
mod given;
#[cfg(test)]
mod performatives;
#[cfg(test)]
mod pieces;
#[cfg(test)]
mod same;
#[cfg(test)]
mod sending;
#[cfg(test)]
mod values;
#[cfg(test)]
mod whole;
