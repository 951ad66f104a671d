//! The legal turns of a state one by one, without a list of them.

ghost use Rattle.std.specs.Prelude.{◌≡◌, ◌*◌, [], Some, None, IfOk, IfSome, IfNone, OnErr, is_none, map, option_map, if◌then◌else◌};
ghost use Rattle.go_points.specs.Place.{number_of};
ghost use Rattle.go_points.specs.Ply.{ply_of, move};
ghost use Rattle.target_game.specs.Child.{child_of};
ghost use Rattle.target_game.specs.Kept.{turn_from};
ghost use Rattle.target_game.specs.Legal.{legal_turns};
ghost use Rattle.target_game.specs.Left.{IsNextMove, NoneLegal, Takes, line_with};
ghost use Rattle.target_game.specs.Over.{over};

use crate::MAX_TURNS;
use crate::child::Child;
use crate::state::State;
use arrayvec::ArrayVec;
use go_points::{MAX_POINTS, Point, Turn};
use go_turns::{Board, Seen};
use std::alloc::AllocError;

/// The legal turns of a state that are still to come: moves, points ascending, and then the pass.
#[derive(Clone, Copy, Debug, Default, PartialEq, Eq)]
pub struct TurnsLeft {
    /// The number of the first point that has not been looked at. `None` if the pass has been taken.
    next: Option<u16>,
}

impl TurnsLeft {
    /// All legal turns of a state where nobody has won.
    pub fn all() -> TurnsLeft
        ensures { result.next ≡ Some 0 }
    {
        TurnsLeft { next: Some(0) }
    }
}

impl<B: Board, S: Seen> State<B, S> {
    /// The first legal move at a point whose number is at least this one, and what it leads to.
    fn next_move(&self, from: usize) -> Option<(Point, Child)>
        ensures some { IfSome result (λ m. IsNextMove self.now.state from m.0) }
        ensures child { IfSome result
            (λ m. child_of self.now.state (move (number_of self.now.state.game.size m.0))
            ≡ Some m.1) }
        ensures none { IfNone result
            (NoneLegal self.now.state from (self.now.state.game.size * self.now.state.game.size)) }
    {
        let mut found = self.next_open(from);
        while let Some(point) = found {
            if let Some(child) = self.move_child(point) {
                return Some((point, child));
            }
            found = self.open_after(point);
        }
        None
    }

    /// The first legal move at a point whose number is at least this one.
    fn next_legal(&self, from: usize) -> Option<Point>
        ensures some { IfSome result (λ p. IsNextMove self.now.state from p) }
        ensures none { IfNone result
            (NoneLegal self.now.state from (self.now.state.game.size * self.now.state.game.size)) }
    {
        let mut found = self.next_open(from);
        while let Some(point) = found {
            if self.may_fill(point) {
                return Some(point);
            }
            found = self.open_after(point);
        }
        None
    }

    /// The first legal turn at a point with this number or a greater one; the pass if there is none.
    pub fn next_turn(&self, from: usize) -> Turn
        ensures { ply_of self.now.state.game.size result ≡ turn_from self.now.state from }
    {
        match self.next_legal(from) {
            Some(point) => Turn::At(point),
            None => Turn::Pass,
        }
    }

    /// Takes the next of the legal turns that are left, without making it, and what it leads to. `None` if no turn is left.
    ///
    /// It looks at the empty points of the region up to that turn, each at the cost of a move.
    pub fn next_child(&self, left: &mut TurnsLeft) -> Option<(Turn, Child)>
        ensures takes { Takes self.now.state left.old.next
            (option_map (λ r. ply_of self.now.state.game.size r.0) result) left.new.next }
        ensures child { IfSome result
            (λ r. child_of self.now.state (ply_of self.now.state.game.size r.0) ≡ Some r.1) }
    {
        let Some(first) = left.next else {
            return None;
        };
        let Some(found) = self.next_move(first as usize) else {
            left.next = None;
            return Some((Turn::Pass, self.pass_child()));
        };
        left.next = Some(found.0.number(self.size()) as u16 + 1);
        Some((Turn::At(found.0), found.1))
    }

    /// Takes the next of the legal turns that are left, without making it. `None` if no turn is left. The cost is at most that of
    /// `next_child`.
    pub fn next_left(&self, left: &mut TurnsLeft) -> Option<Turn>
        ensures { Takes self.now.state left.old.next
            (option_map (ply_of self.now.state.game.size) result) left.new.next }
    {
        let Some(first) = left.next else {
            return None;
        };
        let Some(point) = self.next_legal(first as usize) else {
            left.next = None;
            return Some(Turn::Pass);
        };
        left.next = Some(point.number(self.size()) as u16 + 1);
        Some(Turn::At(point))
    }

    /// The legal turns, points ascending and then the pass. There are none if somebody has won.
    pub fn turns(&self) -> ArrayVec<Turn, MAX_TURNS>
        ensures { map (ply_of self.now.state.game.size) result.items
            ≡ (if is_none (over self.now.state) then legal_turns self.now.state else []) }
    {
        let mut all = ArrayVec::new();
        if self.over().is_some() {
            return all;
        }
        let most = self.size().area();
        let mut left = TurnsLeft::all();
        while let Some(turn) = self.next_left(&mut left) {
            prove!(most <= MAX_POINTS);
            all.push(turn);
        }
        all
    }

    /// Makes the first legal move at a point whose number is at least this one. If there is none, nothing changes.
    fn make_next_move(&mut self, from: usize) -> Result<Option<Point>, AllocError>
        requires open { over self.old.state ≡ None }
        ensures some { IfOk result (λ o. IfSome o (λ p. IsNextMove self.old.state from p)) }
        ensures none { IfOk result
            (λ o. IfNone o (NoneLegal self.old.state from
            (self.old.state.game.size * self.old.state.game.size))) }
        ensures state { IfOk result
            (λ o. self.new ≡ line_with self.old
            (option_map (λ p. move (number_of self.old.state.game.size p)) o)) }
        ensures err { OnErr result (self.new ≡ self.old) }
    {
        let mut found = self.next_open(from);
        while let Some(point) = found {
            if self.try_move(point)? {
                return Ok(Some(point));
            }
            found = self.open_after(point);
        }
        Ok(None)
    }

    /// Makes the next of the legal turns that are left, and takes it from them. `None` if no turn is left. Each move that is tried
    /// is played once. If memory is refused, nothing changes.
    pub fn after_next(&mut self, left: &mut TurnsLeft) -> Result<Option<Turn>, AllocError>
        requires open { over self.old.state ≡ None }
        ensures takes { IfOk result
            (λ t. Takes self.old.state left.old.next
            (option_map (ply_of self.old.state.game.size) t) left.new.next) }
        ensures state { IfOk result
            (λ t. self.new ≡ line_with self.old (option_map (ply_of self.old.state.game.size) t)) }
        ensures err { OnErr result (self.new ≡ self.old) }
    {
        let Some(first) = left.next else {
            return Ok(None);
        };
        let size = self.size();
        if let Some(point) = self.make_next_move(first as usize)? {
            left.next = Some(point.number(size) as u16 + 1);
            return Ok(Some(Turn::At(point)));
        }
        self.after(Turn::Pass)?;
        left.next = None;
        Ok(Some(Turn::Pass))
    }
}
