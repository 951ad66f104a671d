//! Readers and writers that are asked again if they were interrupted, and whose failures are counted.
#![tactic(auto)]

mod counting;

pub use counting::{Counting, MAX_INTERRUPTS};
