//! The empty points of the region one by one, without a list of them.

ghost use Rattle.std.specs.Prelude.{◌+◌, ◌*◌, IfSome, IfNone};
ghost use Rattle.go_points.specs.Place.{IsOn, number_of};
ghost use Rattle.target_game.specs.Left.{IsNextOpen, NoneLegal};

use crate::state::State;
use go_points::{MAX_POINTS, Point};
use go_turns::{Board, Seen};

impl<B: Board, S: Seen> State<B, S> {
    /// The first empty point of the region whose number is not below this one.
    pub fn next_open(&self, from: usize) -> Option<Point>
        ensures some { IfSome result (λ p. IsNextOpen self.now.state from p) }
        ensures none { IfNone result
            (NoneLegal self.now.state from (self.now.state.game.size * self.now.state.game.size)) }
    {
        let size = self.size();
        if from >= size.area() {
            return None;
        }
        let Some(first) = self.region.first_from(size.point_at(from)) else {
            return None;
        };
        if self.played.cell(first).is_empty() {
            return Some(first);
        }
        self.open_after(first)
    }

    /// The first empty point of the region after this one.
    pub(crate) fn open_after(&self, point: Point) -> Option<Point>
        requires { IsOn self.now.state.game.size point }
        ensures some { IfSome result
            (IsNextOpen self.now.state (number_of self.now.state.game.size point + 1)) }
        ensures none { IfNone result
            (NoneLegal self.now.state (number_of self.now.state.game.size point + 1)
            (self.now.state.game.size * self.now.state.game.size)) }
    {
        prove!(self.size().area() <= MAX_POINTS);
        let mut last = point;
        while let Some(next) = self.region.first_after(last) {
            if self.played.cell(next).is_empty() {
                return Some(next);
            }
            last = next;
        }
        None
    }
}
