//! What a board provides: a colouring in which every stone reaches empty, and moves on it.

ghost use Rattle.std.specs.Prelude.{◌≡◌, ◌*◌, ◌↔◌, IsTrue, List, slice_set, is_ok, IfOk, IfErr, OnOk, OnErr, replicate, Some, None};
ghost use Rattle.go_points.specs.declared.Cell.{Cell};
ghost use Rattle.go_points.specs.declared.Cell.TheVariants.{Empty, Stone};
ghost use Rattle.go_points.specs.Grid.{cell_at, same_cell, side_of, IsColouring};
ghost use Rattle.go_points.specs.Place.{IsOn, number_of};
ghost use Rattle.go_points.specs.Liberty.{first_without_liberty};
ghost use Rattle.go_points.specs.Move.{after_move, taken_by_move};
ghost use Rattle.stone_key.specs.Key.{key_of};

pub use go_chains::{NoLiberty, Occupied};
use go_points::{Cell, Colour, Colouring, Point, Size};

/// A colouring in which every stone reaches empty. No call allocates memory.
pub trait Board: Drop {
    /// What its points hold.
    ghost content: { Self → List Cell };

    /// The board without stones.
    fn new(size: Size) -> Self
        ensures value { content result ≡ replicate (size * size) Empty }
        ensures size { side_of (content result) ≡ size };

    /// Another board with the same content.
    fn copy(&self) -> Self
        ensures { content result ≡ content self.now };

    /// Takes over the content of the other board.
    fn copy_from(&mut self, other: &Self)
        ensures { content self.new ≡ content other.now };

    fn size(&self) -> Size
        ensures value { result ≡ side_of (content self.now) };

    /// What the point holds.
    fn cell(&self, point: Point) -> Cell
        requires { IsOn (side_of (content self.now)) point }
        ensures { result
            ≡ cell_at (content self.now) (number_of (side_of (content self.now)) point) };

    /// The colouring, in which every stone reaches empty.
    fn colouring(&self) -> Colouring
        ensures value { result ≡ content self.now }
        ensures colouring { IsColouring (side_of (content self.now)) (content self.now) }
        ensures liberties { first_without_liberty (side_of (content self.now)) (content self.now)
            ≡ None };

    /// The exclusive or of one word for each stone. It depends only on the colouring, however that came about. Different colourings
    /// may share a key.
    fn key(&self) -> u64
        ensures { result ≡ key_of (content self.now) };

    /// Makes a move with both clearings, whether or not it repeats a position. Returns the number of points that held a stone, the
    /// new one included, and are empty afterwards.
    fn play(&mut self, colour: Colour, point: Point) -> Result<u16, Occupied>
        requires { IsOn (side_of (content self.old)) point }
        ensures variant { is_ok result
            ≡ same_cell (cell_at (content self.old) (number_of (side_of (content self.old)) point))
            Empty }
        ensures ok { OnOk result
            (content self.new ≡ after_move (side_of (content self.old)) (content self.old) colour
            (number_of (side_of (content self.old)) point)) }
        ensures size { side_of (content self.new) ≡ side_of (content self.old) }
        ensures taken { IfOk result
            (λ taken. taken ≡ taken_by_move (side_of (content self.old)) (content self.old) colour
            (number_of (side_of (content self.old)) point)) }
        ensures err { OnErr result (content self.new ≡ content self.old) };

    /// Whether a move at the empty point keeps its stone and changes no other point.
    fn quiet(&self, colour: Colour, point: Point) -> bool
        requires on_board { IsOn (side_of (content self.now)) point }
        requires empty { cell_at (content self.now) (number_of (side_of (content self.now)) point)
            ≡ Empty }
        ensures { IsTrue result
            ↔ (after_move (side_of (content self.now)) (content self.now) colour
            (number_of (side_of (content self.now)) point)
            ≡ slice_set (content self.now) (number_of (side_of (content self.now)) point)
            (Stone colour)) };

    /// Whether a move at the point may cost more to take back than a copy of the board. It is a hint, and promises nothing.
    fn is_costly(&self, colour: Colour, point: Point) -> bool
        requires { IsOn (side_of (content self.now)) point };

    /// Takes over the colouring, or returns the least point whose stone does not reach empty.
    fn assign(&mut self, colouring: &Colouring) -> Result<(), NoLiberty>
        requires { side_of colouring.now ≡ side_of (content self.old) }
        ensures ok { OnOk result (content self.new ≡ colouring.now) }
        ensures liberties { OnOk result
            (first_without_liberty (side_of colouring.now) colouring.now ≡ None) }
        ensures fault { IfErr result
            (λ e. first_without_liberty (side_of colouring.now) colouring.now
            ≡ Some (number_of (side_of colouring.now) e.point)) }
        ensures fault_on_board { IfErr result (λ e. IsOn (side_of colouring.now) e.point) }
        ensures err { OnErr result (content self.new ≡ content self.old) };

    /// Takes over a colouring in which every stone reaches empty, as in one that play has been through.
    fn restore(&mut self, colouring: &Colouring)
        requires size { side_of colouring.now ≡ side_of (content self.old) }
        requires liberties { first_without_liberty (side_of colouring.now) colouring.now ≡ None }
        ensures { content self.new ≡ colouring.now };
}
