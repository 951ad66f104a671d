//! Depth-first proof-number search that recognizes living groups, and hopeless ones, by their shape.
//!
//! Where more than 128 points can change, it does not ask about shapes. Nothing is promised about a proof except that the steps are
//! counted: its claim is to be given to the checker.
#![tactic(auto)]

mod asked;
mod dying;
mod expanding;
mod finish;
mod frame;
mod kept;
mod living;
mod numbers;
mod order;
mod questions;
mod results;
mod search;
mod settled;
mod smaller;
mod values;

pub use order::prove;
