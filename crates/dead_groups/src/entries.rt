//! What the other side's moves come to: whether they lead to the taking of a target, or to states of entries.

ghost use Rattle.std.specs.Prelude.{◌≡◌, ◌*◌, ◌<◌, ℕ, [], length, get_or, IsTrue};
ghost use Rattle.std.specs.List.{All};
ghost use Rattle.go_points.specs.Grid.{side_of};
ghost use Rattle.safe_groups.specs.Areas.{Fits};
ghost use Rattle.safe_groups.specs.Ground.{IsState};
ghost use Rattle.dead_groups.specs.Kills.{IsTaken};
ghost use Rattle.dead_groups.specs.Ground.{kill_area, targets_of, IsOutcome};

use crate::states::{attacked, is_sure};
use go_points::Colouring;
use safe_groups::Ground;

/// What the other side's move in a state comes to.
#[derive(Clone, Copy, Debug)]
pub enum Outcome {
    /// The point is not empty, or the move changes nothing.
    Nothing,
    /// A target is not there any more.
    Taken,
    /// It takes stones of the killer's that may stand in truth.
    Unsure,
    /// The state that it leaves, with all targets.
    Leaves(Colouring),
}

/// Whether a target is not there in the state. The targets are those of the other side's stones that the colouring has.
pub fn is_taken(ground: &Ground, targets: &Colouring, state: &Colouring) -> bool
    requires targets { side_of targets.now ≡ side_of ground.now.cells }
    requires side { side_of state.now ≡ side_of ground.now.cells }
    ensures { IsTrue result
        → IsTaken (kill_area ground.now) (targets_of ground.now targets.now) state.now }
{
    let theirs = ground.theirs();
    for number in 0..targets.size().area() {
        if targets.cell(number) == theirs && state.cell(number) != theirs {
            return true;
        }
    }
    false
}

/// What the other side's move at this point of the state comes to.
///
/// It takes some ten sweeps over the board.
pub fn attack(ground: &Ground, targets: &Colouring, state: &Colouring, number: usize) -> Outcome
    requires targets { side_of targets.now ≡ side_of ground.now.cells }
    requires state { IsState ground.now state.now }
    requires within { number < side_of ground.now.cells * side_of ground.now.cells }
    ensures { IsOutcome (kill_area ground.now) (targets_of ground.now targets.now)
        state.now number result }
{
    if !state.cell(number).is_empty() {
        return Outcome::Nothing;
    }
    if !is_sure(ground, state, number) {
        return Outcome::Unsure;
    }
    let left = attacked(ground, state, number);
    if left == *state {
        return Outcome::Nothing;
    }
    if is_taken(ground, targets, &left) {
        return Outcome::Taken;
    }
    Outcome::Leaves(left)
}

/// Whether the colouring fits the state of the entry at this place.
pub fn is_met(ground: &Ground, states: &[Colouring], left: &Colouring, place: usize) -> bool
    requires states { All (IsState ground.now) states.now }
    requires side { side_of left.now ≡ side_of ground.now.cells }
    ensures within { IsTrue result → place < length states.now }
    ensures fits { IsTrue result
        → Fits (kill_area ground.now) left.now (get_or states.now place []) }
{
    if place >= states.len() {
        return false;
    }
    ground.fits(left, &states[place])
}
