//! Proofs of states: who wins there by which turns, and under which conditions on the past.
//!
//! Nothing is promised about a proof: the claim that is made from it is given to the checker.
#![tactic(auto)]

mod answers;
mod ascending;
mod conditions;
mod count;
mod fingerprint;
mod gathered;
mod keys;
mod line;
mod lists;
mod marks;
mod needed;
mod numbers;
mod past;
mod play;
mod proof;
mod proofs;
mod quiet;
mod refusal;
mod rows;
mod shared;
mod sharing;
mod steps;
mod stop;
mod used;
mod visits;

pub use answers::{Answers, steps_for_smaller};
pub use count::{Count, Standing};
pub use keys::{key_after, key_after_move, key_after_pass};
pub use line::Line;
pub use marks::Marks;
pub use numbers::{MoverNumbers, Thresholds};
pub use past::Past;
pub use play::{Move, Play, list_barred, move_of};
pub use proof::{Below, Branch, Form, Proof, Settled};
pub use proofs::{MAX_LINE, Proofs, part_from};
pub use refusal::Refusal;
pub use shared::Shared;
pub use sharing::share;
pub use steps::Steps;
pub use stop::Stop;
pub use used::MAX_STATES;
pub use visits::{MAX_TRIED, Visit, Visits};
