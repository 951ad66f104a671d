//! Groups that are proved to live or to die on the whole board: by their shape, or by a claim that a judge has accepted.
//!
//! What is made here was accepted, and its clauses say what that means; nothing is promised about what is found.
#![tactic(auto)]

mod asking;
mod by_shape;
mod dead;
mod first_moves;
mod move_answer;
mod proven;
mod safe;
mod together;

pub use asking::{proven_stone, search_of, taken_stones};
pub use by_shape::ByShape;
pub use dead::{Dead, DeadByMove};
pub use first_moves::{FirstMoves, Unsettled};
pub use move_answer::{AnswerTo, answer_to};
pub use proven::{Accepted, AcceptedByMove, Proven, ProvenByMove, judged};
pub use safe::{Safe, SafeByMove};
pub use together::safe_together;
