//! Tests of an engine that need its types, by public calls alone: single inputs, whose frames wait, and runs after them or after refused
//! memory; a relay that has a choice, and two engines face to face; a close by a handle, conversions, and a transcript that another
//! program drives. The rows of a connection, of runs, of handles and of transcripts are those of the program `rows_engine`.
#![tactic(auto)]

#[cfg(test)]
mod alike;
#[cfg(test)]
mod asking;
#[cfg(test)]
mod by_fields;
#[cfg(test)]
mod closing;
#[cfg(test)]
mod driving;
#[cfg(test)]
mod errors;
#[cfg(test)]
mod example;
#[cfg(test)]
mod facing;
#[cfg(test)]
mod given;
#[cfg(test)]
mod links;
#[cfg(test)]
mod read_once;
#[cfg(test)]
mod running;
#[cfg(test)]
mod same;
#[cfg(test)]
mod steps;
#[cfg(test)]
mod telling;
#[cfg(test)]
mod transcripts;
#[cfg(test)]
mod untold;
