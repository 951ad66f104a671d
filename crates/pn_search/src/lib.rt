//! The search for a proof: first full search within a few turns, then proof numbers. Every claim is given to the checker.
#![tactic(auto)]

mod search;
mod short;
mod verdict;

pub use search::{solve, solve_for};
pub use short::{Audience, find_short};
pub use state_proofs::Answers;
pub use verdict::{Budget, Cause, Verdict};
