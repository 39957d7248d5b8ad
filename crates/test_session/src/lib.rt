//! Tests of sessions that need their types, by public calls alone: kinds of relay, how often they are asked, laws, conversions, the
//! numbers of deliveries, and events. The rows of the session's calls, and what these answer, are those of the program `rows_session`.
#![tactic(auto)]

#[cfg(test)]
mod asking;
#[cfg(test)]
mod conversions;
#[cfg(test)]
mod events;
#[cfg(test)]
mod laws;
#[cfg(test)]
mod numbers;
#[cfg(test)]
mod relay_answers;
#[cfg(test)]
mod relays;
#[cfg(test)]
mod room;
#[cfg(test)]
mod same;
