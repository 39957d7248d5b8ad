//! AMQP 1.0 values: how they are spelled, how they are read and written.
#![tactic(auto)]

mod array;
mod borrowed;
pub mod codes;
mod composite;
mod cursor;
mod encode;
mod error;
mod field;
mod fields;
mod format_class;
mod list_walk;
mod outcome;
mod raw;
mod row;
mod symbol;
mod symbols;
mod text;
mod value;
mod walk;
mod writing;

pub use borrowed::{Binary, StringRef, SymbolRef, Symbols, Verbatim};
pub use composite::{Composite, described, descriptor};
pub use encode::Encode;
pub use error::{ReadError, WriteError};
pub use field::Field;
pub use fields::Fields;
pub use list_walk::ListWalk;
pub use outcome::is_terminal;
pub use raw::Raw;
pub use row::{Cons, Cons2, Cons4, Extent, NoMore, Row, Row1, Row3};
pub use symbol::Symbol;
pub use value::{Items, ValueRef};
pub use writing::{described_len, put_described};
