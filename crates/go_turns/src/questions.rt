//! What a record says of the present and of what has occurred.

ghost use Rattle.std.specs.Prelude.{◌≡◌, ◌<◌, ◌≤◌, ◌+◌, length, slice_set, ◌↔◌, IsTrue, None};
ghost use Rattle.go_points.specs.Grid.{cell_at, side_of, IsColouring};
ghost use Rattle.go_points.specs.Place.{IsOn, number_of};
ghost use Rattle.go_points.specs.Liberty.{first_without_liberty};
ghost use Rattle.go_points.specs.Move.{after_move};
ghost use Rattle.go_points.specs.declared.Cell.TheVariants.{Empty, Stone};
ghost use Rattle.stone_key.specs.Key.{key_of};
ghost use Rattle.go_turns.specs.Record.{colouring_of};

use crate::board::Board;
use crate::record::Record;
use crate::seen::Seen;
use go_points::{Cell, Colour, Colouring, MAX_POINTS, Point, Size};
use stone_key::stone_word;

impl<B: Board, S: Seen> Record<B, S> {
    /// The size of the board.
    pub fn size(&self) -> Size
        ensures { result ≡ self.now.size }
    {
        self.board.size()
    }

    /// The board, which holds the present colouring.
    pub fn board(&self) -> &B
        ensures value { B.content result.now ≡ colouring_of self.now.present }
        ensures size { side_of (B.content result.now) ≡ self.now.size }
    {
        &self.board
    }

    /// What the point holds.
    pub fn cell(&self, point: Point) -> Cell
        requires { IsOn self.now.size point }
        ensures { result ≡ cell_at (colouring_of self.now.present) (number_of self.now.size point) }
    {
        self.board.cell(point)
    }

    /// Whether a move at the empty point keeps its stone and changes no other point, whether or not it repeats.
    pub fn quiet(&self, colour: Colour, point: Point) -> bool
        requires on_board { IsOn self.now.size point }
        requires empty { cell_at (colouring_of self.now.present) (number_of self.now.size point)
            ≡ Empty }
        ensures { IsTrue result
            ↔ (after_move self.now.size (colouring_of self.now.present) colour
            (number_of self.now.size point)
            ≡ slice_set (colouring_of self.now.present) (number_of self.now.size point)
            (Stone colour)) }
    {
        self.board.quiet(colour, point)
    }

    /// The present colouring, in which every stone reaches empty.
    pub fn colouring(&self) -> Colouring
        ensures value { result ≡ colouring_of self.now.present }
        ensures size { side_of result ≡ self.now.size }
        ensures colouring { IsColouring self.now.size result }
        ensures liberties { first_without_liberty self.now.size result ≡ None }
        ensures within { self.now.present.place < length self.now.present.history }
    {
        self.board.colouring()
    }

    /// The key of the present colouring.
    pub fn key(&self) -> u64
        ensures { result ≡ key_of (colouring_of self.now.present) }
    {
        self.board.key()
    }

    /// The key of the colouring with a stone put down at the empty point: that of the next colouring, if the move is quiet.
    pub fn key_with_stone(&self, colour: Colour, point: Point) -> u64
        requires on_board { IsOn self.now.size point }
        requires empty { cell_at (colouring_of self.now.present) (number_of self.now.size point)
            ≡ Empty }
        ensures { result
            ≡ key_of (slice_set (colouring_of self.now.present) (number_of self.now.size point)
            (Stone colour)) }
    {
        let size = self.seen.at(self.place).size();
        prove!(size.area() <= MAX_POINTS);
        self.board.key() ^ stone_word(point.number(size), colour)
    }

    /// The colourings that have occurred.
    pub fn seen(&self) -> &S
        ensures { S.content result.now ≡ self.now.present.history }
    {
        &self.seen
    }

    /// How many of the last turns were passes.
    pub fn passes(&self) -> u64
        ensures value { result ≡ self.now.present.passes }
        ensures few { result ≤ length self.now.earlier + 2 }
    {
        self.passes
    }

    /// The colour of the last play, if there was one.
    pub fn last_colour(&self) -> Option<Colour>
        ensures { result ≡ self.now.present.last_colour }
    {
        self.last_colour
    }
}
