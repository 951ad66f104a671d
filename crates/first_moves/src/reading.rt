//! The solution below a right turn, by the lines of a short claim.

use crate::claim::turn_before;
use crate::judged::problem_after;
use go_points::Turn;
use pn_search::{Audience, Budget};
use sgf_text::Tree;
use short_proofs::{Proved, Reading, prove, reading_of};
use std::alloc::{AllocError, Global};
use target_game::{PlayState, Problem};

/// The record for readers of a short claim by which the mover wins with this turn, if a search finds one whose record counts as no
/// more turns than are left. Those that it counts as are left no more.
pub(crate) fn reading_by(
    alloc: Global,
    problem: &Problem,
    turn: Turn,
    budget: Budget,
    left: &mut usize,
) -> Result<Option<Tree>, AllocError> {
    // The prover takes a turn that was passed on as moved.
    let same = turn;
    prove!(problem.place() < problem.history().len());
    let state = PlayState::of(alloc, problem)?;
    let Some(later) = problem_after(alloc, problem, &state, turn)? else {
        return Ok(None);
    };
    match prove(alloc, &later, Audience::Readers, budget)? {
        Proved::Wins {
            winner,
            turn: _,
            text: _text,
            certificate,
        } => {
            if winner != problem.mover() {
                return Ok(None);
            }
            let claim = turn_before(alloc, same, &certificate)?;
            let reading = reading_of(alloc, problem, claim, *left)?;
            Ok(taken(reading, left))
        }
        Proved::Unknown { cause: _, steps: _ } => Ok(None),
    }
}

/// The record that was written, if there is one.
fn taken(reading: Reading, left: &mut usize) -> Option<Tree> {
    match reading {
        Reading::Wins {
            winner: _,
            turns,
            tree,
        } => {
            *left = left.saturating_sub(turns);
            Some(tree)
        }
        Reading::TooLarge { winner: _, turn: _ } => None,
        Reading::Unknown { cause: _, steps: _ } => None,
    }
}
