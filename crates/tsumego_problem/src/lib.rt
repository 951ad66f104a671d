//! Problems from SGF trees, and back.
#![tactic(auto)]

mod canonical;
pub mod fault;
pub mod laws;
mod main_line;
mod named_points;
mod node_change;
mod node_fault;
mod read;
mod setup_nodes;
mod sizes;
mod values;
mod walk;

pub use canonical::{marks_node, marks_with_winner, past_nodes, problem_tree, turn_node};
pub use fault::{ProblemFault, SingleProperty, TurnFaultCause};
pub use main_line::{Mark, first_marked, has_setup, locate, problem_node, values_at};
pub use named_points::{all_points, points_at};
pub use node_change::{assigned, turn_at};
pub use read::{board_size, history_of, read_problem};
pub use values::{read_turn, skip_white};
