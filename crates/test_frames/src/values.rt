//! Raw values, with bytes from the standard's encodings, and hostile ones.

mod hostile;
mod outcomes;
mod parts;
mod raw_values;
mod reading;
mod symbols;
mod walks;
