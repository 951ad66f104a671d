//! What a move makes and whether it is legal, without making it. Most moves change no other point, and no colouring with the new
//! key has occurred: those are known to be legal by the key alone, and no board is copied.

ghost use Rattle.std.specs.Prelude.{◌≡◌, ◌&&◌, true, IfSome};
ghost use Rattle.go_points.specs.Grid.{cell_at, same_cell, side_of};
ghost use Rattle.go_points.specs.Move.{after_move};
ghost use Rattle.go_points.specs.Place.{IsOn, number_of};
ghost use Rattle.go_points.specs.Ply.{ply_of, move};
ghost use Rattle.go_points.specs.declared.Cell.TheVariants.{Empty};
ghost use Rattle.go_turns.specs.History.{has_occurred};
ghost use Rattle.target_game.specs.Legal.{legal, holds_point};
ghost use Rattle.target_game.specs.Private.NewKey.{IsNewKey};

use crate::state::State;
use go_points::{Cell, Colouring, Point, Turn};
use go_turns::{Board, Seen};
use stone_key::KeyedColouring;

impl<B: Board, S: Seen> State<B, S> {
    /// The position after the mover's move at an empty point.
    pub(crate) fn position_after(&self, point: Point) -> KeyedColouring
        requires on_board { IsOn self.now.state.game.size point }
        requires empty { same_cell
            (cell_at self.now.state.colouring (number_of self.now.state.game.size point)) Empty
            ≡ true }
        ensures value { result
            ≡ after_move self.now.state.game.size self.now.state.colouring self.now.state.mover
            (number_of self.now.state.game.size point) }
        ensures size { side_of result ≡ self.now.state.game.size }
    {
        if !self.played.quiet(self.mover, point) {
            return self.position_by_play(point);
        }
        let board = self.played.board();
        let mut position = KeyedColouring::with_key(board.colouring(), board.key());
        position.set(point, Cell::Stone(self.mover));
        position
    }

    // The same by a move on a copy of the board, which is filled with zeros first: a function of its own, so that only moves that
    // change other points pay for it.
    fn position_by_play(&self, point: Point) -> KeyedColouring
        requires on_board { IsOn self.now.state.game.size point }
        requires empty { same_cell
            (cell_at self.now.state.colouring (number_of self.now.state.game.size point)) Empty
            ≡ true }
        ensures value { result
            ≡ after_move self.now.state.game.size self.now.state.colouring self.now.state.mover
            (number_of self.now.state.game.size point) }
        ensures size { side_of result ≡ self.now.state.game.size }
    {
        let mut after = self.played.board().copy();
        let _removed = after.play(self.mover, point);
        KeyedColouring::with_key(after.colouring(), after.key())
    }

    /// Whether the colouring has occurred.
    pub(crate) fn has_occurred(&self, position: &KeyedColouring) -> bool
        ensures { result ≡ has_occurred self.now.state.history position.now }
    {
        self.played
            .seen()
            .holds_with(position.colouring(), position.key())
            .is_some()
    }

    /// The colouring after the mover's move at an empty point.
    pub fn result(&self, point: Point) -> Colouring
        requires on_board { IsOn self.now.state.game.size point }
        requires empty { same_cell
            (cell_at self.now.state.colouring (number_of self.now.state.game.size point)) Empty
            ≡ true }
        ensures { result
            ≡ after_move self.now.state.game.size self.now.state.colouring self.now.state.mover
            (number_of self.now.state.game.size point) }
    {
        *self.position_after(point).colouring()
    }

    /// The key after the move at an empty point, if the move changes no other point and no colouring that has occurred has that key.
    pub(crate) fn new_key(&self, point: Point) -> Option<u64>
        requires on_board { IsOn self.now.state.game.size point }
        requires empty { same_cell
            (cell_at self.now.state.colouring (number_of self.now.state.game.size point)) Empty
            ≡ true }
        ensures { IfSome result
            (IsNewKey self.now.state (number_of self.now.state.game.size point)) }
    {
        if !self.played.quiet(self.mover, point) {
            return None;
        }
        let key = self.played.key_with_stone(self.mover, point);
        if self.played.seen().may_hold(key) {
            return None;
        }
        Some(key)
    }

    /// Whether the mover may move at the point, if nobody has won.
    pub fn may_move(&self, point: Point) -> bool
        requires { IsOn self.now.state.game.size point }
        ensures { result ≡ legal self.now.state (move (number_of self.now.state.game.size point)) }
    {
        if !self.is_open(point) {
            return false;
        }
        self.may_fill(point)
    }

    /// Whether the mover may move at an empty point of the region.
    pub(crate) fn may_fill(&self, point: Point) -> bool
        requires on_board { IsOn self.now.state.game.size point }
        requires free { (holds_point self.now.state.game.region
            (number_of self.now.state.game.size point) && same_cell
            (cell_at self.now.state.colouring (number_of self.now.state.game.size point)) Empty)
            ≡ true }
        ensures { result ≡ legal self.now.state (move (number_of self.now.state.game.size point)) }
    {
        if let Some(_key) = self.new_key(point) {
            return true;
        }
        !self.has_occurred(&self.position_after(point))
    }

    /// Whether the turn is legal, if nobody has won. It may be any turn, even at a point off the board. The cost is at most that of
    /// `child`.
    pub fn is_legal(&self, turn: Turn) -> bool
        ensures { result ≡ legal self.now.state (ply_of self.now.state.game.size turn) }
    {
        match turn {
            Turn::Pass => true,
            Turn::At(point) => {
                if !self.size().holds(point) {
                    return false;
                }
                self.may_move(point)
            }
        }
    }
}
