//! The chain of a point. Most chains and areas of a board with many of them are a single point, for which the neighbours tell all;
//! the board goes over all points for each.

ghost use Rattle.std.specs.Prelude.{◌≢◌, ℕ, IsTrue, IfSome, IfNone};
ghost use Rattle.std.specs.Prelude.{◌≡◌};
ghost use Rattle.go_points.specs.declared.Cell.TheVariants.{Empty};
ghost use Rattle.go_points.specs.Grid.{adjacent, cell_at, side_of};
ghost use Rattle.go_points.specs.Place.{IsOn, number_of};
ghost use Rattle.go_chains.specs.Joined.{IsChainOf};

use go_chains::ChainBoard;
use go_points::{Point, PointSet};

/// Whether no neighbour of the point holds what the point holds.
fn is_alone(board: &ChainBoard, point: Point) -> bool
    requires { IsOn (side_of board.now) point }
    ensures { IsTrue result → (q : ℕ)
        → IsTrue (adjacent (side_of board.now) (number_of (side_of board.now) point) q)
        → cell_at board.now q ≢ cell_at board.now (number_of (side_of board.now) point) }
{
    let cell = board.cell(point);
    let neighbours = point.neighbours(board.size());
    for neighbour in neighbours.as_slice() {
        if board.cell(*neighbour) == cell {
            return false;
        }
    }
    true
}

/// The stones of the chain at the point; `None` at an empty point.
pub(crate) fn chain_at(board: &ChainBoard, point: Point) -> Option<PointSet>
    requires { IsOn (side_of board.now) point }
    ensures some { IfSome result
        (λ s. IsChainOf (side_of board.now) board.now (number_of (side_of board.now) point) s) }
    ensures none { IfNone result
        (cell_at board.now (number_of (side_of board.now) point) ≡ Empty) }
{
    if board.cell(point).is_empty() {
        return None;
    }
    if !is_alone(board, point) {
        return board.chain_of(point);
    }
    let mut chain = PointSet::new();
    chain.insert(point);
    Some(chain)
}
