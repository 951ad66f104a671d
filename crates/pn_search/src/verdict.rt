//! What a search may use, and how it ended.

use cert_check::Checked;
use std::num::NonZeroUsize;
use target_game::Problem;

/// What a search may use.
#[derive(Clone, Copy, Debug, PartialEq, Eq)]
pub struct Budget {
    /// The greatest number of expansions. Each makes the children of one state and asks of each whether the game is over.
    pub steps: u64,
    /// The greatest number of states whose numbers are kept in the table.
    pub table: NonZeroUsize,
}

/// Why a search ended without an answer.
#[derive(Clone, Copy, Debug, PartialEq, Eq)]
pub enum Cause {
    /// All steps of the budget were made.
    Steps = 1,
    /// Memory was refused.
    Memory = 2,
    /// The checker refused the claim that was found.
    NotConfirmed = 3,
    /// The claim that was found is larger or deeper than a claim may be.
    Limit = 4,
}

/// How a search ended.
#[derive(Drop)]
pub enum Verdict {
    /// The claim's winner wins the problem.
    Wins(Checked),
    /// Nothing is known of the problem, which is handed back. `steps` steps were made.
    Unknown {
        problem: Problem,
        cause: Cause,
        steps: u64,
    },
}
