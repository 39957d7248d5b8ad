//! Tests of the driver by public calls alone: a recorded connection, in parts of different sizes, what is to be sent, and why a call stops.
#![tactic(auto)]

#[cfg(test)]
mod attaches;
#[cfg(test)]
mod cutting;
#[cfg(test)]
mod given;
#[cfg(test)]
mod received;
#[cfg(test)]
mod records;
#[cfg(test)]
mod same;
#[cfg(test)]
mod sending;
#[cfg(test)]
mod stops;
