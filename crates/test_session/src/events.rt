//! Events, by public calls alone: the queue, the policy, a relay over a queue of its own, and a session whose links share one.

mod by_value;
mod example;
mod frames;
mod policies;
mod queues;
mod seen;
mod sessions;
mod tags;
