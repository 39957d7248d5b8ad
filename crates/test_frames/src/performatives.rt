//! Performatives: their texts, and how a program makes them.

mod alone;
mod defaults;
mod digits;
