//! Groups that die by answers: problems for which a judge has accepted a claim of death.

ghost use Rattle.std.specs.Prelude.{◌≡◌, IfOk, IfSome, IsTrue};
ghost use Rattle.go_points.specs.declared.Cell.TheVariants.{Stone};
ghost use Rattle.go_points.specs.Grid.{cell_at, opponent_of, same_cell, side_of, IsColouring};
ghost use Rattle.go_chains.specs.Joined.{HoldsThose};
ghost use Rattle.proved_groups.specs.Dead.{IsLost, IsLostByMove, IsTakenNow};
ghost use Rattle.proved_groups.specs.Position.{IsOfStones};

use crate::safe::problem_of;
use dead_groups::judge;
use go_points::{Colour, Colouring, PointSet};
use safe_groups::Stop;
use std::alloc::{AllocError, Global};
use target_game::Problem;

/// A problem whose targets are dead by answers whoever is to move, since a judge has accepted a claim for it with the defender to move:
/// the other side takes one of them, as long as the supposed stones, which are its own, have liberties elsewhere.
#[derive(Drop)]
pub struct Dead {
    problem: Problem,
    supposed: PointSet,
    ghost dead: { ∥ IsLost problem supposed ∥₁ },
}

impl Dead {
    /// The problem.
    pub fn problem(&self) -> &Problem
        ensures value { result.now ≡ self.now.problem }
        ensures dead { ∥ IsLost result.now self.now.supposed ∥₁ }
    {
        &self.problem
    }

    /// The supposed stones.
    pub fn supposed(&self) -> PointSet
        ensures { result ≡ self.now.supposed }
    {
        self.supposed
    }
}

/// A problem with the attacker to move, who takes one of the targets by that move, since a judge has accepted a claim for it, as long as
/// the supposed stones have liberties elsewhere.
#[derive(Drop)]
pub struct DeadByMove {
    problem: Problem,
    supposed: PointSet,
    ghost dead: { ∥ IsLostByMove problem supposed ∥₁ },
}

impl DeadByMove {
    /// The problem.
    pub fn problem(&self) -> &Problem
        ensures value { result.now ≡ self.now.problem }
        ensures dead { ∥ IsLostByMove result.now self.now.supposed ∥₁ }
    {
        &self.problem
    }

    /// The supposed stones.
    pub fn supposed(&self) -> PointSet
        ensures { result ≡ self.now.supposed }
    {
        self.supposed
    }
}

/// Whether the defender is to move, and nobody has just passed. A claim with the attacker to move would not show that the group is dead.
fn is_owners_turn(problem: &Problem) -> bool
    ensures mover { IsTrue result → problem.now.mover ≡ problem.now.game.defender }
    ensures passes { IsTrue result → problem.now.passes ≡ 0 }
{
    if problem.mover() != problem.defender() {
        return false;
    }
    problem.passes() == 0
}

/// Whether the attacker is to move, and nobody has just passed.
fn is_killers_turn(problem: &Problem) -> bool
    ensures mover { IsTrue result → problem.now.mover ≡ opponent_of problem.now.game.defender }
    ensures passes { IsTrue result → problem.now.passes ≡ 0 }
{
    if problem.mover() != problem.defender().opponent() {
        return false;
    }
    problem.passes() == 0
}

/// The stones of this side.
fn stones_of(colouring: &Colouring, colour: Colour) -> PointSet
    ensures those { HoldsThose (side_of colouring.now)
        (λ p. same_cell (cell_at colouring.now p) (Stone colour)) result }
    ensures colouring { IsColouring (side_of colouring.now) colouring.now }
{
    let size = colouring.size();
    let mut stones = PointSet::new();
    for number in 0..size.area() {
        if colouring.cell(number).is_stone_of(colour) {
            stones.insert(size.point_at(number));
        }
    }
    stones
}

/// The stones that are supposed to stand, if a judge accepts this claim for the problem. It fails only if memory is refused.
fn supposed_by(
    alloc: Global,
    problem: &Problem,
    claim: &[u8],
) -> Result<Option<PointSet>, AllocError>
    ensures { IfOk result (λ o. IfSome o (λ supposed. IsTakenNow problem.now supposed)) }
{
    let mut nothing = b"".as_slice();
    match judge(alloc, problem, claim, &mut nothing) {
        Ok(verdict) => Ok(Some(stones_of(&verdict.supposed, verdict.killer))),
        Err(reject) => match reject.stop {
            Stop::Memory => Err(AllocError),
            _ => Ok(None),
        },
    }
}

/// The problem, if a judge accepts this claim for it with the defender to move.
fn accepted(alloc: Global, problem: Problem, claim: &[u8]) -> Result<Option<Dead>, AllocError>
    ensures { IfOk result (λ o. IfSome o (λ a. a.problem ≡ problem)) }
{
    if !is_owners_turn(&problem) {
        return Ok(None);
    }
    match supposed_by(alloc, &problem, claim)? {
        Some(supposed) => Ok(Some(Dead { problem, supposed })),
        None => Ok(None),
    }
}

/// The problem, if a judge accepts this claim for it with the attacker to move.
fn accepted_by_move(
    alloc: Global,
    problem: Problem,
    claim: &[u8],
) -> Result<Option<DeadByMove>, AllocError>
    ensures { IfOk result (λ o. IfSome o (λ a. a.problem ≡ problem)) }
{
    if !is_killers_turn(&problem) {
        return Ok(None);
    }
    match supposed_by(alloc, &problem, claim)? {
        Some(supposed) => Ok(Some(DeadByMove { problem, supposed })),
        None => Ok(None),
    }
}

/// The problem of these stones of one side, which is to move, in the position of the problem, if a judge accepts this claim for it.
pub(crate) fn dead_stones(
    alloc: Global,
    problem: &Problem,
    owner: Colour,
    stones: PointSet,
    claim: &[u8],
) -> Result<Option<Dead>, AllocError>
    ensures { IfOk result (λ o. IfSome o (λ a. IsOfStones problem.now stones a.problem)) }
{
    match problem_of(alloc, problem, owner, stones)? {
        Some(made) => accepted(alloc, made, claim),
        None => Ok(None),
    }
}

/// The problem of these stones of one side, with the other side to move, in the position of the problem, if a judge accepts this claim
/// for it.
pub(crate) fn stones_dead_by_move(
    alloc: Global,
    problem: &Problem,
    owner: Colour,
    stones: PointSet,
    claim: &[u8],
) -> Result<Option<DeadByMove>, AllocError>
    ensures { IfOk result (λ o. IfSome o (λ a. IsOfStones problem.now stones a.problem)) }
{
    match problem_of(alloc, problem, owner.opponent(), stones)? {
        Some(made) => accepted_by_move(alloc, made, claim),
        None => Ok(None),
    }
}
