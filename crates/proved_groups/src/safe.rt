//! Groups that live by answers: problems for which a judge has accepted a claim of life.

ghost use Rattle.std.specs.Prelude.{◌≡◌, IfOk, IfSome, Some};
ghost use Rattle.target_game.specs.State.{start};
ghost use Rattle.safe_groups.specs.Ground.{IsSafeAs};
ghost use Rattle.safe_groups.specs.Laws.{IsSafe};
ghost use Rattle.proved_groups.specs.Position.{IsOfStones};

use go_points::{Colour, Point, PointSet};
use safe_groups::{Stop, Verdict, judge};
use std::alloc::{AllocError, Global};
use target_game::Problem;
use tsumego_problem::all_points;

/// A problem whose targets are safe by answers, since a judge has accepted a claim for it: whoever is to move, their owner keeps
/// them all.
#[derive(Drop)]
pub struct Safe {
    problem: Problem,
    ghost safe: { ∥ IsSafe (start problem) ∥₁ },
}

impl Safe {
    /// The problem.
    pub fn problem(&self) -> &Problem
        ensures value { result.now ≡ self.now.problem }
        ensures safe { ∥ IsSafe (start result.now) ∥₁ }
    {
        &self.problem
    }
}

/// A problem whose targets are safe by answers once their owner, who is to move, has played at a point, since a judge has accepted a
/// claim for it.
#[derive(Drop)]
pub struct SafeByMove {
    problem: Problem,
    first: Point,
    ghost safe: { ∥ IsSafeAs (Some first) (start problem) ∥₁ },
}

impl SafeByMove {
    /// The problem.
    pub fn problem(&self) -> &Problem
        ensures { result.now ≡ self.now.problem }
    {
        &self.problem
    }

    /// That move of the owner's.
    pub fn first(&self) -> Point
        ensures value { result ≡ self.now.first }
        ensures safe { ∥ IsSafeAs (Some result) (start self.now.problem) ∥₁ }
    {
        self.first
    }
}

/// The problem of these stones on the whole board, in the same position with the same past, with this side to move. `None` if they are
/// not stones of one colour.
pub(crate) fn problem_of(
    alloc: Global,
    problem: &Problem,
    mover: Colour,
    stones: PointSet,
) -> Result<Option<Problem>, AllocError>
    ensures { IfOk result (λ o. IfSome o (IsOfStones problem.now stones)) }
{
    let history = problem.history().to_vec(alloc)?;
    let region = all_points(problem.size());
    match Problem::new(history, problem.place(), mover, 0, stones, region) {
        Ok(made) => Ok(Some(made)),
        Err(_) => Ok(None),
    }
}

/// What a judge says of this claim for the problem, if it accepts it. It fails only if memory is refused.
fn verdict_of(alloc: Global, problem: &Problem, claim: &[u8]) -> Result<Option<Verdict>, AllocError>
    ensures { IfOk result (λ o. IfSome o (λ v. IsSafeAs v.first (start problem.now))) }
{
    let mut nothing = b"".as_slice();
    match judge(alloc, problem, claim, &mut nothing) {
        Ok(verdict) => Ok(Some(verdict)),
        Err(reject) => match reject.stop {
            Stop::Memory => Err(AllocError),
            _ => Ok(None),
        },
    }
}

/// The problem, if a judge accepts this claim for it, by which no first move is needed.
fn accepted(alloc: Global, problem: Problem, claim: &[u8]) -> Result<Option<Safe>, AllocError>
    ensures { IfOk result (λ o. IfSome o (λ a. a.problem ≡ problem)) }
{
    match verdict_of(alloc, &problem, claim)? {
        Some(verdict) => match verdict.first {
            None => Ok(Some(Safe { problem })),
            Some(_) => Ok(None),
        },
        None => Ok(None),
    }
}

/// The problem, if a judge accepts this claim for it, which begins with a first move.
fn accepted_by_move(
    alloc: Global,
    problem: Problem,
    claim: &[u8],
) -> Result<Option<SafeByMove>, AllocError>
    ensures { IfOk result (λ o. IfSome o (λ a. a.problem ≡ problem)) }
{
    match verdict_of(alloc, &problem, claim)? {
        Some(verdict) => match verdict.first {
            Some(first) => Ok(Some(SafeByMove { problem, first })),
            None => Ok(None),
        },
        None => Ok(None),
    }
}

/// The problem of these stones in the position of the problem, if a judge accepts this claim for it.
pub(crate) fn safe_stones(
    alloc: Global,
    problem: &Problem,
    stones: PointSet,
    claim: &[u8],
) -> Result<Option<Safe>, AllocError>
    ensures { IfOk result (λ o. IfSome o (λ a. IsOfStones problem.now stones a.problem)) }
{
    match problem_of(alloc, problem, problem.mover(), stones)? {
        Some(made) => accepted(alloc, made, claim),
        None => Ok(None),
    }
}

/// The problem of these stones of one side, which is to move, in the position of the problem, if a judge accepts this claim for it,
/// which begins with a first move.
pub(crate) fn stones_safe_by_move(
    alloc: Global,
    problem: &Problem,
    owner: Colour,
    stones: PointSet,
    claim: &[u8],
) -> Result<Option<SafeByMove>, AllocError>
    ensures { IfOk result (λ o. IfSome o (λ a. IsOfStones problem.now stones a.problem)) }
{
    match problem_of(alloc, problem, owner, stones)? {
        Some(made) => accepted_by_move(alloc, made, claim),
        None => Ok(None),
    }
}
