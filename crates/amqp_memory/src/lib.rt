//! Every request for memory of the crates above. Where one is refused, that is a fact that its caller can cite, and nothing else makes it.
#![tactic(auto)]

mod beside;
mod digits;
mod holds;
mod maps;
mod queues;
mod texts;
mod vectors;

pub use beside::{more_in_buffer_for, more_in_queue_beside, more_in_queue_for, vector_for};
pub use digits::{digits_of, spelled_by};
pub use holds::{boxed, held, hold_again};
pub use maps::{
    more_in_heap, more_in_heap_for, more_in_map, more_in_slab, put_full_in_map, put_in_map,
};
pub use queues::{more_in_queue, push_in_queue, queue_with};
pub use texts::{
    buffer_with, bytes_of_vector, copy_of, filled_of, front_of, frozen, frozen_front,
    more_in_buffer, part_of, push_in_text, shared, text_again, text_of,
};
pub use vectors::{more_in_vector, more_in_vector_exactly, vector_with};
