//! Groups that live by their shape wherever moves are made, so that nothing has to be asked about them.

ghost use Rattle.std.specs.Prelude.{◌≡◌, IfSome, IsTrue};
ghost use Rattle.proved_groups.specs.Shape.{LivesAnywhere};

use go_chains::ChainBoard;
use go_points::{Colour, Colouring, Point, PointSet};
use pass_alive::is_pass_alive;
use tsumego_problem::all_points;

/// A stone of a position that lives by its shape, wherever on the board moves are made.
#[derive(Drop)]
pub struct ByShape {
    colouring: Colouring,
    stone: Point,
    owner: Colour,
    ghost lives: { ∥ LivesAnywhere colouring stone owner ∥₁ },
}

impl ByShape {
    /// That the stone of this colour at the point lives so, if it does. It takes a few milliseconds on the largest board.
    pub fn of(colouring: &Colouring, stone: Point, owner: Colour) -> Option<ByShape>
        ensures { IfSome result (λ shape. (shape.colouring ≡ colouring.now)
            × (shape.stone ≡ stone) × (shape.owner ≡ owner)) }
    {
        if !lives_anywhere(colouring, stone, owner) {
            return None;
        }
        Some(ByShape {
            colouring: *colouring,
            stone,
            owner,
        })
    }

    /// Whose stone it is.
    pub fn owner(&self) -> Colour
        ensures value { result ≡ self.now.owner }
        ensures lives { ∥ LivesAnywhere self.now.colouring self.now.stone result ∥₁ }
    {
        self.owner
    }
}

/// Whether the stone of this colour at the point lives by its shape, wherever on the board moves are made.
fn lives_anywhere(colouring: &Colouring, target: Point, defender: Colour) -> bool
    ensures { IsTrue result → LivesAnywhere colouring.now target defender }
{
    let Ok(board) = ChainBoard::from_colouring(colouring) else {
        return false;
    };
    let mut targets = PointSet::new();
    targets.insert(target);
    is_pass_alive(&board, &targets, defender, &all_points(colouring.size()))
}
