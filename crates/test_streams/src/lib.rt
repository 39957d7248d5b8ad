//! Tests of streams by public calls alone, and of what a server needs of the driver: headers, SASL, the time, and sessions that the peer begins and ends.
#![tactic(auto)]

#[cfg(test)]
mod answers;
#[cfg(test)]
mod hostile;
#[cfg(test)]
mod same;
#[cfg(test)]
mod serving;
#[cfg(test)]
mod sessions;
#[cfg(test)]
mod streams;
#[cfg(test)]
mod timed;
