//! The areas between the stones of one colour: the points that do not hold a stone of that colour, joined where they are adjacent.
//!
//! They are kept as the chains of another board, on which each such point holds a stone of the other colour, and all others are
//! empty. The liberties of a chain there are the stones around the area.

ghost use Rattle.std.specs.Prelude.{◌≢◌, ◌*◌, ◌<◌, ℕ, IfSome, IfNone};
ghost use Rattle.go_points.specs.declared.Cell.TheVariants.{Stone};
ghost use Rattle.go_points.specs.Grid.{cell_at, side_of};
ghost use Rattle.pass_alive.specs.Areas.{AreAreas};

use go_chains::ChainBoard;
use go_points::{Cell, Colour, Colouring};

/// The colouring on which each point without a stone of the colour holds a stone of the other colour.
fn filled_around(board: &ChainBoard, colour: Colour) -> Colouring
    ensures { AreAreas colour board.now result }
{
    let size = board.size();
    let mut filled = Colouring::empty(size);
    for number in 0..size.area() {
        let point = size.point_at(number);
        if !board.cell(point).is_stone_of(colour) {
            filled.set(point, Cell::Stone(colour.opponent()));
        }
    }
    filled
}

/// The areas. `None` only if there is no stone of the colour.
pub fn areas_of(board: &ChainBoard, colour: Colour) -> Option<ChainBoard>
    ensures some { IfSome result (λ a. AreAreas colour board.now a) }
    ensures none { IfNone result ((q : ℕ) → q < side_of board.now * side_of board.now
        → cell_at board.now q ≢ Stone colour) }
{
    match ChainBoard::from_colouring(&filled_around(board, colour)) {
        Ok(areas) => Some(areas),
        Err(_) => None,
    }
}
