//! Tests of what is collected of deliveries in parts: whole ones, aborted ones, and such as are too large.
#![tactic(auto)]

#[cfg(test)]
mod collecting;
