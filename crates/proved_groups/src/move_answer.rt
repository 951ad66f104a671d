//! How the status of a group is kept that is proved, after a move of the side that would change it.

ghost use Rattle.std.specs.Prelude.{IfOk, IfSome};
ghost use Rattle.target_game.specs.State.{start};
ghost use Rattle.proved_groups.specs.After.{IsAfter, IsAnswerTo, IsResult, IsWith};

use crate::asking::{proven_by_move, proven_stone};
use crate::proven::{Proven, ProvenByMove};
use go_points::{Colour, Colouring, Point, Turn};
use std::alloc::{AllocError, Global};
use target_game::{PlayState, Problem};
use tsumego_problem::all_points;

/// What follows the move.
#[derive(Drop)]
pub enum AnswerTo {
    /// The rules bar it.
    Barred,
    /// Nothing has to be played.
    Pass(Proven),
    /// This has to be played first.
    Move(ProvenByMove),
    /// The steps show no answer.
    Unknown,
}

/// The answer to the move of this side at the point, where the group of the stone at the target is alive, or else dead, by a proof.
pub fn answer_to(
    alloc: Global,
    problem: &Problem,
    target: Point,
    is_alive: bool,
    mover: Colour,
    point: Point,
    steps: u64,
) -> Result<AnswerTo, AllocError>
    ensures { IfOk result (IsAnswerTo problem.now target mover point) }
{
    let Some(after) = problem_after(alloc, problem, mover, point)? else {
        return Ok(AnswerTo::Barred);
    };
    match proven_stone(alloc, &after, target, steps)? {
        Some(proven) if proven.is_alive() == is_alive && proven.supposed().is_empty() => {
            return Ok(AnswerTo::Pass(proven));
        }
        _ => {}
    }
    match proven_by_move(alloc, &after, target, mover.opponent(), steps)? {
        Some(proven) if proven.is_alive() == is_alive => Ok(AnswerTo::Move(proven)),
        _ => Ok(AnswerTo::Unknown),
    }
}

/// The problem after the move of this side at the point. `None` if it may not be played, or takes a stone that was asked about.
fn problem_after(
    alloc: Global,
    problem: &Problem,
    mover: Colour,
    point: Point,
) -> Result<Option<Problem>, AllocError>
    ensures { IfOk result (λ o. IfSome o (IsAfter problem.now mover point)) }
{
    let mut history = problem.history().to_vec(alloc)?;
    let Some(before) = problem_with(
        problem,
        problem.history().to_vec(alloc)?,
        problem.place(),
        mover,
    ) else {
        return Ok(None);
    };
    let Some(after) = colouring_after(alloc, &before, point)? else {
        return Ok(None);
    };
    let place = history.len();
    history.push(after)?;
    Ok(problem_with(problem, history, place, mover.opponent()))
}

/// The problem of the same stones on the whole board, with this history and this side to move.
fn problem_with(
    problem: &Problem,
    history: Vec<Colouring>,
    place: usize,
    mover: Colour,
) -> Option<Problem>
    ensures { IfSome result (IsWith problem.now history.items place mover) }
{
    let targets = *problem.targets();
    let region = all_points(problem.size());
    match Problem::new(history, place, mover, 0, targets, region) {
        Ok(made) => Some(made),
        Err(_) => None,
    }
}

/// The colouring after the mover's move at the point, if it may be played.
fn colouring_after(
    alloc: Global,
    problem: &Problem,
    point: Point,
) -> Result<Option<Colouring>, AllocError>
    ensures { IfOk result (λ o. IfSome o (IsResult (start problem.now) point)) }
{
    let state = PlayState::of(alloc, problem)?;
    Ok(result_of(&state, point))
}

/// The same in a state.
fn result_of(state: &PlayState, point: Point) -> Option<Colouring>
    ensures { IfSome result (IsResult state.now.state point) }
{
    if !state.size().holds(point) || !state.is_open(point) {
        return None;
    }
    if !state.is_legal(Turn::At(point)) {
        return None;
    }
    Some(state.result(point))
}
