//! What holds of every history of an engine, as contracts of functions that do nothing.

pub use amqp_engine::laws::{
    law_of_engine_numbers, law_of_histories, law_of_runs_into, law_of_transfer_frames,
    law_of_two_runs, law_of_views, law_of_wished_runs,
};
