//! What is unsettled in one direction of an AMQP session: of each delivery its number, its link and a value of
//! the caller's, until it is settled or its link goes (AMQP 1.0 part 2, sections 2.6.12, 2.6.13 and 2.7.6).
//!
//! ```
//! let mut unsettled = Unsettled::new(alloc);
//! unsettled.insert(Entry { number: 7, link: 0, given: 70 })?;     // a delivery was sent, and not settled
//! unsettled.insert(Entry { number: 8, link: 1, given: 80 })?;
//! unsettled.insert(Entry { number: 9, link: 0, given: 90 })?;
//! while let Some(entry) = unsettled.settle_next(7, 8) {           // a settled disposition from 7 to 8
//!     confirm(entry.given);                                       // 70, and then 80
//! }
//! while let Some(entry) = unsettled.remove_next_of(0) {           // link 0 has gone
//!     send_again(entry.given);                                    // 90
//! }
//! ```
//!
//! With n deliveries in the table a call costs:
//!
//! | Call | What it costs |
//! |---|---|
//! | `len`, `is_empty`, `count_of`, `forget_link` | constant |
//! | `get`, `find_next`, `next_of` | a search of the numbers |
//! | `insert` | constant; with the highest link until then, a step for each link between it and the highest before |
//! | `settle_next` of the oldest, `remove_oldest` | constant |
//! | `remove`, `settle_next`, `remove_next_of` | a search of the numbers, and one of those of its link |
//!
//! A search is constant where it ends at the oldest or the newest, or where none is missing between them, or all that
//! are stand in one stretch; and else logarithmic in how many are missing, and in n. A delivery that goes from among
//! others leaves its cell, so that none has to move, and its number is not missing. Cells that are left are cleared
//! away once they are most, in a step for each: so a delivery pays for a few cells, in whatever order they go. A
//! stretch of cells that are left is passed over: `settle_next` notes in each that it comes to how far the stretch
//! goes, so that a later walk skips it; `find_next`, which notes nothing, goes by what was noted. No cost grows with
//! how many numbers a range has, nor with links.
//!
//! A delivery takes a cell of 24 bytes, and one of 8 among those of its link; a link 40 bytes, up to the highest: so
//! links are to have low numbers, as the handles of a session are. Where less than one cell of 16 is in use the next
//! delivery that goes lets the others go, but for 64. `forget_link` lets go what a link has, but for its place.
#![tactic(auto)]

mod cells;
mod entry;
pub mod laws;
mod lists;
mod numbered;
mod row;
mod search;
mod serial;
mod spots;
mod table;
mod taking;

pub use entry::{Entry, InsertError};
pub use table::Unsettled;
