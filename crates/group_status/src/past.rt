//! The past of a problem.

use std::alloc::{AllocError, Global};
use target_game::{PlayState, Problem, State};

/// Whether a position of the past, other than the present one, bars a move of the side that is to move.
pub(crate) fn bars_a_turn(alloc: Global, problem: &Problem) -> Result<bool, AllocError> {
    if problem.history().len() < 2 {
        return Ok(false);
    }
    let state: PlayState = State::of(alloc, problem)?;
    let size = state.size();
    for number in 0..size.area() {
        let point = size.point_at(number);
        if state.is_open(point)
            && !state.may_move(point)
            && state.result(point) != *problem.colouring()
        {
            return Ok(true);
        }
    }
    Ok(false)
}

/// The problem as if nothing had been played before.
pub(crate) fn without_past(
    alloc: Global,
    problem: &Problem,
) -> Result<Option<Problem>, AllocError> {
    let mut history = Vec::new(alloc);
    history.push(*problem.colouring())?;
    let targets = *problem.targets();
    let region = *problem.region();
    match Problem::new(history, 0, problem.mover(), 0, targets, region) {
        Ok(made) => Ok(Some(made)),
        Err(_) => Ok(None),
    }
}
