//! Answer trees: expanded from a checked claim, written as a record, and audited in anyone's record.
#![tactic(auto)]

mod answer;
mod expansion;
mod fault;
mod first_line;
mod given;
pub mod laws;
mod opened;
mod questions;
mod solution;
mod tree_audit;

pub use answer::Answer;
pub use expansion::expand;
pub use fault::{AuditFault, AuditWhy, Expand};
pub use questions::{ask_rest, take_back, take_turn};
pub use solution::to_sgf;
pub use tree_audit::audit;
