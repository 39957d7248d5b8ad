//! Tests of protocol headers, SASL frames and openings: each call on its happy path, and what hostile peers send.
#![tactic(auto)]

#[cfg(test)]
mod clients;
#[cfg(test)]
mod frames;
#[cfg(test)]
mod given;
#[cfg(test)]
mod headers;
#[cfg(test)]
mod hostile;
#[cfg(test)]
mod plain;
#[cfg(test)]
mod same;
#[cfg(test)]
mod servers;
