//! Tests of the endpoints of sessions, by public calls alone: two streams face to face, whose links have an endpoint on either side.
#![tactic(auto)]

#[cfg(test)]
mod both;
#[cfg(test)]
mod faults;
#[cfg(test)]
mod fitting;
#[cfg(test)]
mod same;
#[cfg(test)]
mod second;
#[cfg(test)]
mod side;
#[cfg(test)]
mod waiting;
