//! Marks a problem in a record: at which node it is asked about, for which stones and in which region, and the record with the marks.
#![tactic(auto)]

mod any_stone;
mod asked_node;
mod mark;
mod marking;
mod named_points;
mod region;
mod stone_problem_of;
mod stones;
mod supposing;

pub use any_stone::position_problem;
pub use asked_node::{MAX_NODE_NUMBER, default_node, last_node, node_argument};
pub use marking::{MarkedRecord, Marks, Refusal, Region, marked_record, problem_of};
pub use region::touches;
pub use stone_problem_of::{NoStone, marked_problem, stone_problem};
pub use supposing::{SupposedRecord, Supposition, supposed_record};
