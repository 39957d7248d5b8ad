//! Tests of the table of what is unsettled: each call, ranges past the wrap, hostile orders, and random calls beside a
//! plain list.
#![tactic(auto)]

#[cfg(test)]
mod beside;
#[cfg(test)]
mod calls;
#[cfg(test)]
mod links;
#[cfg(test)]
mod many;
#[cfg(test)]
mod memory;
#[cfg(test)]
mod ranges;
#[cfg(test)]
mod same;
