//! What all programs share: how a run ends, how its input is read, and their common limits.
#![tactic(auto)]

mod input;
mod limits;
mod status;

pub use input::{InputEnd, read_to_limit};
pub use limits::{MAX_FRONT, MAX_STEPS, MAX_TURNS, TABLE};
pub use status::Status;
