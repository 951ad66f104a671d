//! A problem that was given to the search, and its winner.

ghost use Rattle.std.specs.Prelude.{◌≡◌, IfOk, IfSome};
ghost use Rattle.target_game.specs.State.{start};
ghost use Rattle.target_game.specs.Wins.{Wins};

use go_points::{Colour, Turn};
use pn_search::{Audience, Budget, Cause};
use short_proofs::{Proved, prove};
use std::alloc::{AllocError, Global};
use target_game::Problem;

/// A problem that was given to the search, and who wins it by a short claim that its judge accepted, if one was found.
#[derive(Drop)]
pub(crate) struct Asked {
    pub(crate) problem: Problem,
    pub(crate) winner: Option<Colour>,
    /// The first turn of that claim, if the winner moves first.
    pub(crate) turn: Option<Turn>,
    /// Why none was found, and after how many steps.
    pub(crate) cause: Option<Cause>,
    pub(crate) steps: u64,
    ghost wins: { ∥ IfSome winner (λ w. Wins w (start problem)) ∥₁ },
}

/// Gives the problem to the search. It fails only if memory is refused.
pub(crate) fn ask(alloc: Global, problem: Problem, budget: Budget) -> Result<Asked, AllocError>
    ensures { IfOk result (λ a. a.problem ≡ problem) }
{
    match prove(alloc, &problem, Audience::Judge, budget)? {
        Proved::Wins {
            winner,
            turn,
            text: _text,
            certificate: _certificate,
        } => Ok(won(problem, winner, turn)),
        Proved::Unknown { cause, steps } => unknown(problem, cause, steps),
    }
}

/// The problem, and the winner that an accepted short claim names. The claim is not kept.
fn won(problem: Problem, winner: Colour, turn: Option<Turn>) -> Asked
    requires { Wins winner (start problem) }
    ensures { result.problem ≡ problem }
{
    Asked {
        problem,
        winner: Some(winner),
        turn,
        cause: None,
        steps: 0,
    }
}

/// The problem without a winner.
fn unknown(problem: Problem, cause: Cause, steps: u64) -> Result<Asked, AllocError>
    ensures { IfOk result (λ a. a.problem ≡ problem) }
{
    match cause {
        Cause::Memory => Err(AllocError),
        _ => Ok(Asked {
            problem,
            winner: None,
            turn: None,
            cause: Some(cause),
            steps,
        }),
    }
}
