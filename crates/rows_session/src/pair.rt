//! Rows of a pair of sessions: each line is calls, and what is printed is what they answer.
//!
//! | Line | Call |
//! |---|---|
//! | `# TEXT` | none: a row begins, and the line is repeated |
//! | `new FIRST WINDOW FIRST WINDOW` | `SessionPair::new`, by the first number and the incoming window of A, and then of B |
//! | letters | calls, in order: of A where the letter is small, of B where it is a capital one |
//!
//! | Letter | Call |
//! |---|---|
//! | `a`, `d` | `allocate_link` of that name, with a relay |
//! | `b`, `r` | `begin`, `arrive` |
//! | `h`, `j` | `send_attach` of the name `a` under handle 0, of `d` under handle 1 |
//! | `f`, `e`, `w` | `send_flow` for handle 0, for handle 0 with an echo, for handle 7 |
//! | `t`, `s`, `v` | `send_transfer`, the first one of a delivery: on handle 0, settled, on handle 7 |
//! | `u`, `c` | `send_transfer` without a tag on handle 0: a first one, a later one |
//!
//! Letters are answered by as many: `.` where all is well, `i` for `IllegalState`, `u` for `UnattachedHandle`, `n` for
//! `RemoteAttachingLinkNameNotFound`, `h` for `HandleInUse`, `s` for `SessionNotMapped`, `d` for `DuplicatedLinkName`, `m` for
//! `OutOfMemory`. After them stands a sum over the numbers of both sides after each call, then what each side shows: its
//! state, its numbers and windows, what waits, what is open, and what is on the way to it.

mod call;
mod row;

pub use row::answer;
