//! Which stones have a liberty that nobody can fill. Where the region is small most have one, and need no eyes.

ghost use Rattle.std.specs.Prelude.{◌↔◌, ℕ, IsTrue, map};
ghost use Rattle.go_points.specs.Grid.{side_of};
ghost use Rattle.go_points.specs.Place.{Place, IsOn};
ghost use Rattle.go_points.specs.Points.{holds_place};
ghost use Rattle.pass_alive.specs.Life.{Fixed};
ghost use Rattle.pass_alive.specs.Sets.{these, number_on, IsNear};
ghost use Rattle.pass_alive.specs.Private.Areas.{LastsOutside};

use crate::sides::{are_beside_free, is_beside_free};
use go_chains::ChainBoard;
use go_points::PointSet;

/// Whether the chain has a liberty outside the region, which nobody can fill.
pub(crate) fn is_lasting(board: &ChainBoard, region: &PointSet, chain: &PointSet) -> bool
    requires { (p : Place) → IsTrue (holds_place chain.now p) → IsOn (side_of board.now) p }
    ensures { IsTrue result ↔ ((q : ℕ) × Fixed
        (map (number_on (side_of board.now)) region.now) board.now q
        × IsNear (side_of board.now) (these (side_of board.now) chain.now) q) }
{
    are_beside_free(board, region, chain)
}

/// The stones that are beside no such liberty themselves. The others have one.
pub(crate) fn doubtful_stones(board: &ChainBoard, region: &PointSet, stones: &PointSet) -> PointSet
    requires { (p : Place) → IsTrue (holds_place stones.now p) → IsOn (side_of board.now) p }
    ensures among { (p : Place) → IsTrue (holds_place result p)
        → IsTrue (holds_place stones.now p) }
    ensures outside { LastsOutside (side_of board.now)
        (map (number_on (side_of board.now)) region.now) board.now
        (these (side_of board.now) result) (these (side_of board.now) stones.now) }
{
    let mut doubtful = PointSet::new();
    for stone in stones.iter() {
        if !is_beside_free(board, region, stone) {
            doubtful.insert(stone);
        }
    }
    doubtful
}
