//! What a turn leads to, without making it: the first moves of a state can be compared at a fraction of the cost of play.

ghost use Rattle.std.specs.Prelude.{◌≡◌, true, Some, slice_set};
ghost use Rattle.go_points.specs.Grid.{cell_at, same_cell};
ghost use Rattle.go_points.specs.Move.{after_move};
ghost use Rattle.go_points.specs.Place.{IsOn, number_of};
ghost use Rattle.go_points.specs.Ply.{ply_of, move, pass};
ghost use Rattle.go_points.specs.declared.Cell.TheVariants.{Empty, Stone};
ghost use Rattle.target_game.specs.Child.{child_of};
ghost use Rattle.target_game.specs.Next.{next};
ghost use Rattle.target_game.specs.Over.{over};

use crate::state::State;
use go_points::{Colour, Point, Turn};
use go_turns::{Board, Seen};

/// The state after a legal turn.
#[derive(Clone, Copy, Debug, PartialEq, Eq)]
pub struct Child {
    /// The key of its colouring.
    pub key: u64,
    /// Who has won there.
    pub winner: Option<Colour>,
}

impl<B: Board, S: Seen> State<B, S> {
    /// What the turn leads to, without making it. `None` if it is not legal. It allocates no memory and takes the time of at most
    /// one move.
    pub fn child(&self, turn: Turn) -> Option<Child>
        ensures { result ≡ child_of self.now.state (ply_of self.now.state.game.size turn) }
    {
        match turn {
            Turn::Pass => Some(self.pass_child()),
            Turn::At(point) => {
                if !self.size().holds(point) {
                    return None;
                }
                self.move_child(point)
            }
        }
    }

    /// What a pass leads to.
    pub(crate) fn pass_child(&self) -> Child
        ensures { child_of self.now.state pass ≡ Some result }
    {
        Child {
            key: self.key(),
            winner: self.winner_after_pass(),
        }
    }

    // Who has won after a move at an empty point that changes no other point. It takes no target, so usually the targets alone tell.
    fn winner_after_quiet(&self, point: Point) -> Option<Colour>
        requires on_board { IsOn self.now.state.game.size point }
        requires empty { same_cell
            (cell_at self.now.state.colouring (number_of self.now.state.game.size point)) Empty
            ≡ true }
        requires quiet { after_move self.now.state.game.size self.now.state.colouring
            self.now.state.mover (number_of self.now.state.game.size point)
            ≡ slice_set self.now.state.colouring (number_of self.now.state.game.size point)
            (Stone self.now.state.mover) }
        ensures { result
            ≡ over (next self.now.state (move (number_of self.now.state.game.size point))) }
    {
        if self.targets_stand() {
            return None;
        }
        self.winner_at(self.position_after(point).colouring())
    }

    /// What a move at the point leads to. `None` if it is not legal.
    pub(crate) fn move_child(&self, point: Point) -> Option<Child>
        requires { IsOn self.now.state.game.size point }
        ensures { result
            ≡ child_of self.now.state (move (number_of self.now.state.game.size point)) }
    {
        if !self.is_open(point) {
            return None;
        }
        if let Some(key) = self.new_key(point) {
            return Some(Child {
                key,
                winner: self.winner_after_quiet(point),
            });
        }
        let position = self.position_after(point);
        if self.has_occurred(&position) {
            return None;
        }
        Some(Child {
            key: position.key(),
            winner: self.winner_at(position.colouring()),
        })
    }
}
