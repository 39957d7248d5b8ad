//! Sets of numbers: each call on its happy path, and long runs beside a plain list.

mod calls;
mod runs;
