//! Whether two problems are the same.

ghost use Rattle.std.specs.Prelude.{◌≡◌, IsTrue};

use go_points::{Colouring, PointSet};
use target_game::Problem;

/// Whether the problems are the same in every part, including the order of their histories.
pub fn are_same(first: &Problem, second: &Problem) -> bool
    ensures { IsTrue result → second.now ≡ first.now }
{
    if first.size() != second.size() || first.defender() != second.defender() {
        return false;
    }
    if first.mover() != second.mover() || first.passes() != second.passes() {
        return false;
    }
    if first.place() != second.place() || !are_same_lists(first.history(), second.history()) {
        return false;
    }
    are_same_points(first.targets(), second.targets())
        && are_same_points(first.region(), second.region())
}

fn are_same_lists(first: &[Colouring], second: &[Colouring]) -> bool
    ensures { IsTrue result → second.now ≡ first.now }
{
    first == second
}

fn are_same_points(first: &PointSet, second: &PointSet) -> bool
    ensures { IsTrue result → second.now ≡ first.now }
{
    first == second
}
