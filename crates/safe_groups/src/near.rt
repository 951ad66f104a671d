//! The points near a chain, which are looked for from its stones.

ghost use Rattle.std.specs.Prelude.{◌⊎◌, IsTrue};
ghost use Rattle.go_points.specs.Grid.{adjacent};
ghost use Rattle.go_points.specs.Place.{Place, IsOn, number_of};
ghost use Rattle.go_points.specs.Points.{holds_place};
ghost use Rattle.safe_groups.specs.Private.Spaces.{AreNear};

use go_points::{Point, PointSet, Size};

/// Adds the points beside the stone.
fn add_neighbours(size: Size, stone: Point, near: &mut PointSet)
    requires { IsOn size stone }
    ensures { (q : Place) → IsTrue (holds_place near.new q) → IsTrue (holds_place near.old q)
        ⊎ IsTrue (adjacent size (number_of size stone) (number_of size q)) }
{
    let neighbours = stone.neighbours(size);
    for neighbour in neighbours.as_slice() {
        near.insert(*neighbour);
    }
}

/// The points beside the stones of the chain.
pub(crate) fn near_chain(size: Size, chain: &PointSet) -> PointSet
    ensures { AreNear size chain.now result }
{
    let mut near = PointSet::new();
    for stone in chain.iter() {
        if size.holds(stone) {
            add_neighbours(size, stone, &mut near);
        }
    }
    near
}
