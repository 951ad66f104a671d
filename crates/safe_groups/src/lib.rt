//! Groups that are safe by answers: their owner answers within a region, and no play of the other side, anywhere, takes them.
#![tactic(auto)]

mod bodies;
mod claim;
mod eyes;
mod fault;
mod ground;
mod heads;
pub mod laws;
mod liberties;
mod lines;
mod near;
mod standing;
mod states;
mod together;
mod verdict;

pub use bodies::{Counts, count_reply, count_state, spelled_state};
pub use claim::{Reject, Verdict, judge};
pub use fault::{Fault, Stop};
pub use ground::Ground;
pub use heads::{area_of_line, read_keeper};
pub use lines::ClaimLines;
pub use standing::{Standing, judge_standing};
