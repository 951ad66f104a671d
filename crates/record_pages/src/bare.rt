//! A problem without the game before it.

ghost use Rattle.std.specs.Prelude.{IfOk, IfSome};
ghost use Rattle.record_pages.specs.Bare.{IsAlone, IsBare};

use go_points::Colouring;
use std::alloc::{AllocError, Global};
use target_game::Problem;

/// The problem with another history, whose first position is the present one.
fn problem_with(problem: &Problem, history: Vec<Colouring>) -> Option<Problem>
    ensures { IfSome result (λ bare. IsAlone problem.now history.items bare) }
{
    let mover = problem.mover();
    let passes = problem.passes();
    let targets = *problem.targets();
    let region = *problem.region();
    match Problem::new(history, 0, mover, passes, targets, region) {
        Ok(bare) => Some(bare),
        Err(_) => None,
    }
}

/// The problem of the present position, in which no other position has occurred.
pub fn without_past(alloc: Global, problem: &Problem) -> Result<Option<Problem>, AllocError>
    ensures { IfOk result (λ made. IfSome made (λ bare. IsBare problem.now bare)) }
{
    let mut history = Vec::new(alloc);
    history.push(*problem.colouring())?;
    Ok(problem_with(problem, history))
}
