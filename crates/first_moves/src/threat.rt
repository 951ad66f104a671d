//! Turns that threaten something: a player who makes one has to be answered.

ghost use Rattle.std.specs.Prelude.{◌≡◌, true, IfOk, IfSome};
ghost use Rattle.go_points.specs.Ply.{ply_of};
ghost use Rattle.target_game.specs.State.{start};
ghost use Rattle.target_game.specs.Wins.{Wins};
ghost use Rattle.short_proofs.specs.Proved.{HasWinner};
ghost use Rattle.first_moves.specs.Threat.{EndsWon, IsSameSide};

use crate::judged::{problem_after, problem_with};
use go_points::{Colour, Turn};
use pn_search::{Audience, Budget};
use short_proofs::{Proved, prove};
use std::alloc::{AllocError, Global};
use std::num::NonZeroUsize;
use target_game::{PlayState, Problem};

/// The most steps of the search for what a turn threatens.
const STEPS: u64 = 2_000;

/// Whether the mover wins if it may make this turn and then move again. The search has this many entries in its table; where it finds
/// nothing, nothing is threatened.
pub(crate) fn threatens(
    alloc: Global,
    problem: &Problem,
    turn: Turn,
    table: NonZeroUsize,
) -> Result<bool, AllocError> {
    // The prover takes a turn that was passed on as moved.
    let same = turn;
    prove!(problem.place() < problem.history().len());
    let state = PlayState::of(alloc, problem)?;
    if ends_won(problem, &state, turn) {
        return Ok(true);
    }
    let Some(later) = problem_after(alloc, problem, &state, same)? else {
        return Ok(false);
    };
    match same_side(alloc, &later)? {
        Some(again) => wins(alloc, &again, problem.mover(), table),
        None => Ok(false),
    }
}

/// Whether the turn ends the game, and the mover has won.
fn ends_won(problem: &Problem, state: &PlayState, turn: Turn) -> bool
    requires { state.now.state ≡ start problem.now }
    ensures { result ≡ true → EndsWon problem.now (ply_of problem.now.game.size turn) }
{
    let Some(child) = state.child(turn) else {
        return false;
    };
    if let Some(winner) = child.winner {
        if winner == problem.mover() {
            return true;
        }
    }
    false
}

/// The problem with the side to move that has just moved, as if the other had given its turn away, but without a pass.
fn same_side(alloc: Global, later: &Problem) -> Result<Option<Problem>, AllocError>
    ensures { IfOk result (λ made. IfSome made (IsSameSide later.now)) }
{
    let history = later.history().to_vec(alloc)?;
    Ok(problem_with(later, history, later.place(), 0))
}

/// Whether this side is proved to win the problem.
fn wins(
    alloc: Global,
    problem: &Problem,
    side: Colour,
    table: NonZeroUsize,
) -> Result<bool, AllocError>
    ensures { IfOk result (λ b. b ≡ true → Wins side (start problem.now)) }
{
    let budget = Budget {
        steps: STEPS,
        table,
    };
    let proved = prove(alloc, problem, Audience::Judge, budget)?;
    Ok(names_winner(problem, &proved, side))
}

/// Whether this side is the winner that is proved.
fn names_winner(problem: &Problem, proved: &Proved, side: Colour) -> bool
    requires { HasWinner problem.now proved.now }
    ensures { result ≡ true → Wins side (start problem.now) }
{
    match proved {
        Proved::Wins {
            winner,
            turn: _,
            text: _,
            certificate: _,
        } => {
            if *winner == side {
                return true;
            }
            false
        }
        Proved::Unknown { cause: _, steps: _ } => false,
    }
}
