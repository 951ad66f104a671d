//! What the search of answers is asked: how much, and about which stone.

ghost use Rattle.std.specs.Prelude.{IfOk, IfSome};
ghost use Rattle.proved_groups.specs.Proven.{IsOfStone, IsOfStoneByMove};

use crate::proven::{Proven, ProvenByMove, judged, judged_by_move};
use go_points::{Colour, Point, PointSet};
use group_search::{GroupSearch, Limits, find_by_first_move, find_for_stone, find_taken};
use pass_alive::put_in;
use std::alloc::{AllocError, Global};
use target_game::Problem;

/// How many times the steps of a question all questions about one stone may take.
const QUESTIONS: u64 = 2;

/// All questions about a board may take the square of the steps of one, divided by this: with few steps little is asked.
const SHARE: u64 = 200;

/// How many times the steps of a question one about a whole area of a side may take: most large groups live there, and their proofs
/// are long.
const WHOLE_AREA: u64 = 5;

/// The limits by which one question takes at most these steps, one about a whole area more, and all of them so many.
fn limits(steps: u64, all_steps: u64) -> Limits {
    let most = Limits::default();
    Limits {
        steps: most.steps.min(steps),
        closed_steps: most.closed_steps.min(steps.saturating_mul(WHOLE_AREA)),
        all_steps: most.all_steps.min(all_steps),
        ..most
    }
}

/// What is proved of the stone at the point in the position of the problem, whoever moves first. With no steps only a shape is looked
/// at.
pub fn proven_stone(
    alloc: Global,
    problem: &Problem,
    point: Point,
    steps: u64,
) -> Result<Option<Proven>, AllocError>
    ensures { IfOk result (λ o. IfSome o (IsOfStone problem.now point)) }
{
    let found = find_for_stone(
        alloc,
        problem.colouring(),
        problem.history(),
        None,
        limits(steps, steps.saturating_mul(QUESTIONS)),
        point,
    )?;
    match found {
        Some(finding) if finding.stones.has(point) => judged(alloc, problem, finding),
        _ => Ok(None),
    }
}

/// What is proved of the stone at the point in the position of the problem by the first move of this side, whoever's turn it is there.
pub(crate) fn proven_by_move(
    alloc: Global,
    problem: &Problem,
    point: Point,
    mover: Colour,
    steps: u64,
) -> Result<Option<ProvenByMove>, AllocError>
    ensures { IfOk result (λ o. IfSome o (IsOfStoneByMove problem.now point)) }
{
    let found = find_by_first_move(
        alloc,
        problem.colouring(),
        problem.history(),
        mover,
        limits(steps, steps.saturating_mul(QUESTIONS)),
        point,
    )?;
    match found {
        Some(finding) if finding.stones.has(point) && finding.first.is_some() => {
            judged_by_move(alloc, problem, finding)
        }
        _ => Ok(None),
    }
}

/// The stones of which it is proved that this side takes them, perhaps as long as others stand, among the chains of these stones.
pub fn taken_stones(
    alloc: Global,
    problem: &Problem,
    taker: Colour,
    stones: &PointSet,
    steps: u64,
) -> Result<PointSet, AllocError> {
    let limits = limits(steps, steps.saturating_mul(QUESTIONS));
    let (board, past) = (problem.colouring(), problem.history());
    let mut found = find_taken(alloc, board, past, limits, taker, stones)?;
    let mut taken = PointSet::new();
    for _ in 0..found.len() {
        if let Some(finding) = found.pop() {
            if let Some(proven) = judged(alloc, problem, finding)? {
                if !proven.is_alive() {
                    put_in(&mut taken, &proven.finding().stones);
                }
            }
        }
    }
    Ok(taken)
}

/// A search over the whole board of the problem.
pub fn search_of(alloc: Global, problem: &Problem, steps: u64) -> Result<GroupSearch, AllocError> {
    GroupSearch::new(
        alloc,
        problem.colouring(),
        problem.history(),
        None,
        limits(steps, (steps.saturating_mul(steps) / SHARE).max(steps)),
    )
}
