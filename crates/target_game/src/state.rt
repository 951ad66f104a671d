//! States of the target game, and the play from them.

ghost use Rattle.std.specs.Prelude.{◌≡◌, ◌⊎◌, ◌≤◌, ◌<◌, ◌&&◌, true, false, [], ◌∷◌, IsTrue, IsFalse, IfOk, IfErr, OnOk, OnErr, None, ◌*◌, length};
ghost use Rattle.std.specs.List.{All};
ghost use Rattle.go_points.specs.Grid.{cell_at, same_cell, side_of};
ghost use Rattle.go_points.specs.Liberty.{first_without_liberty};
ghost use Rattle.go_points.specs.Place.{IsOn, number_of};
ghost use Rattle.go_points.specs.Ply.{ply_of, move, pass};
ghost use Rattle.go_points.specs.declared.Cell.TheVariants.{Empty};
ghost use Rattle.go_turns.specs.History.{place_in, repeats};
ghost use Rattle.stone_key.specs.Key.{key_of};
ghost use Rattle.target_game.specs.State.{Line, start, state_alone, state_with};
ghost use Rattle.target_game.specs.Legal.{legal, holds_point};
ghost use Rattle.target_game.specs.Left.{is_repeat, line_if};
ghost use Rattle.target_game.specs.Next.{next};
ghost use Rattle.target_game.specs.Over.{over, targets_stand};
ghost use Rattle.target_game.specs.Kept.{at_fault, IsAtFault};

use crate::history::with_others;
use crate::problem::Problem;
use crate::questions::{all_hold, differ_at, has_many};
use go_points::{Cell, Colour, Colouring, Point, PointSet, Size, Turn};
use go_turns::{Board, Record, Seen, TurnFault};
use std::alloc::{AllocError, Global};
use std::marker::Model;
use thiserror::Error;

/// Why there is no state with only this colouring in its history.
#[derive(Clone, Copy, Debug, PartialEq, Eq, Error)]
pub enum AtFault {
    /// The least point whose stone does not reach empty.
    #[error("no liberty")]
    NoLiberty { point: Point },
    #[error("out of memory")]
    Memory,
}

/// A state of the game, with the turns that led to it since it was made.
#[derive(Drop)]
pub struct State<B: Board, S: Seen> {
    pub(crate) played: Record<B, S>,
    pub(crate) mover: Colour,
    targets: PointSet,
    defender: Colour,
    pub(crate) region: PointSet,
    // A colouring in which the targets stand, and whether they are so many that it is quicker to look where another differs from it.
    begin: Colouring,
    has_many: bool,
}

impl<B: Board, S: Seen> Model for State<B, S> {
    ghost use Rattle.std.specs.List.{All};
    ghost use Rattle.go_points.specs.Place.{IsOn};
    ghost use Rattle.target_game.specs.State.{Line};
    ghost use Rattle.target_game.specs.Kept.{kept_game, kept_line};
    ghost use Rattle.target_game.specs.Private.Stand.{StandIn};

    ghost Value = { Line };

    ghost view = { λ a. kept_line (kept_game a.played.size a.targets a.defender a.region) a.mover
        a.played };

    ghost invariant = { λ a. All (IsOn a.played.size) a.targets
        × All (IsOn a.played.size) a.region
        × StandIn (kept_game a.played.size a.targets a.defender a.region) a.begin };
}

// The fault of a record as that of a state.
fn at_fault(fault: TurnFault) -> AtFault
    ensures { result ≡ at_fault fault }
{
    match fault {
        TurnFault::NoLiberty { point } => AtFault::NoLiberty { point },
        _ => AtFault::Memory,
    }
}

// Whether the fault is that the colouring has occurred.
fn repeats(fault: TurnFault) -> bool
    ensures { result ≡ is_repeat fault }
{
    match fault {
        TurnFault::Repeats { earlier: _ } => true,
        _ => false,
    }
}

impl<B: Board, S: Seen> State<B, S> {
    /// The start of the problem.
    pub fn of(alloc: Global, problem: &Problem) -> Result<State<B, S>, AllocError>
        ensures { IfOk result (λ s. s ≡ record { state = start problem.now; before = [] }) }
    {
        match Record::with_history(alloc, problem.history(), problem.place(), problem.passes()) {
            Ok(played) => Ok(State {
                played,
                mover: problem.mover(),
                targets: *problem.targets(),
                defender: problem.defender(),
                region: *problem.region(),
                begin: problem.begin(),
                has_many: has_many(problem.targets()),
            }),
            Err(_) => Err(AllocError),
        }
    }

    /// The state of the problem's game with only this colouring in its history, after this many passes have just been made. Refused
    /// with the least point whose stone does not reach empty, if there is one.
    pub fn at(
        alloc: Global,
        problem: &Problem,
        colouring: &Colouring,
        mover: Colour,
        passes: u64,
    ) -> Result<State<B, S>, AtFault>
        requires size { side_of colouring.now ≡ problem.now.game.size }
        requires few { passes ≤ 1 }
        ensures ok { IfOk result
            (λ s. s ≡ record {
              state = state_alone problem.now.game colouring.now mover passes;
              before = [];
            }) }
        ensures liberties { OnOk result
            (first_without_liberty problem.now.game.size colouring.now ≡ None) }
        ensures err { IfErr result
            (λ e. IsAtFault problem.now.game.size
            (first_without_liberty problem.now.game.size colouring.now) e) }
    {
        match Record::with_history(alloc, &[*colouring], 0, passes) {
            Ok(played) => Ok(State {
                played,
                mover,
                targets: *problem.targets(),
                defender: problem.defender(),
                region: *problem.region(),
                begin: problem.begin(),
                has_many: has_many(problem.targets()),
            }),
            Err(fault) => Err(at_fault(fault)),
        }
    }

    /// Like `at`, with these other colourings in the history as well, each once. They are only remembered.
    pub fn at_with(
        alloc: Global,
        problem: &Problem,
        colouring: &Colouring,
        others: &[Colouring],
        mover: Colour,
        passes: u64,
    ) -> Result<State<B, S>, AtFault>
        requires size { side_of colouring.now ≡ problem.now.game.size }
        requires sizes { All (λ c. side_of c ≡ problem.now.game.size) others.now }
        requires once { IsFalse (repeats others.now) }
        requires few { passes ≤ 1 }
        ensures ok { IfOk result
            (λ s. s ≡ record {
              state = state_with problem.now.game colouring.now others.now mover
                  passes;
              before = [];
            }) }
        ensures liberties { OnOk result
            (first_without_liberty problem.now.game.size colouring.now ≡ None) }
        ensures err { IfErr result (λ e. (e ≡ AtFault.Memory)
            ⊎ IsAtFault problem.now.game.size
            (first_without_liberty problem.now.game.size colouring.now) e) }
    {
        let Ok(history) = with_others(alloc, colouring, others) else {
            return Err(AtFault::Memory);
        };
        match Record::with_history(alloc, history.as_slice(), 0, passes) {
            Ok(played) => Ok(State {
                played,
                mover,
                targets: *problem.targets(),
                defender: problem.defender(),
                region: *problem.region(),
                begin: problem.begin(),
                has_many: has_many(problem.targets()),
            }),
            Err(fault) => Err(at_fault(fault)),
        }
    }

    /// Starts again in the same game: the history then has only this colouring, and this many passes have just been made. Refused
    /// with the least point whose stone does not reach empty, if there is one; then nothing changes. The board is changed only
    /// where the colouring differs from the present one.
    pub fn restart(
        &mut self,
        alloc: Global,
        colouring: &Colouring,
        mover: Colour,
        passes: u64,
    ) -> Result<(), AtFault>
        requires size { side_of colouring.now ≡ self.old.state.game.size }
        requires few { passes ≤ 1 }
        ensures ok { OnOk result
            (self.new ≡ record {
              state = state_alone self.old.state.game colouring.now mover passes;
              before = [];
            }) }
        ensures liberties { OnOk result
            (first_without_liberty self.old.state.game.size colouring.now ≡ None) }
        ensures err { IfErr result
            (λ e. IsAtFault self.old.state.game.size
            (first_without_liberty self.old.state.game.size colouring.now) e) }
        ensures kept { OnErr result (self.new ≡ self.old) }
    {
        match self.played.reopen(alloc, colouring, passes) {
            Ok(()) => {
                self.mover = mover;
                Ok(())
            }
            Err(fault) => Err(at_fault(fault)),
        }
    }

    /// Who has won: the attacker, if some target point does not hold the defender's colour; otherwise the defender, if two passes
    /// have just been made.
    pub fn over(&self) -> Option<Colour>
        ensures { result ≡ over self.now.state }
    {
        if !self.targets_stand() {
            Some(self.defender.opponent())
        } else if self.played.passes() == 2 {
            Some(self.defender)
        } else {
            None
        }
    }

    /// Whether each target point holds the defender's colour in this colouring.
    fn stand_in(&self, colouring: &Colouring) -> bool
        requires { side_of colouring.now ≡ self.now.state.game.size }
        ensures { result ≡ targets_stand (record self.now.state { colouring = colouring.now }) }
    {
        if self.has_many {
            return !differ_at(colouring, &self.begin, &self.targets);
        }
        all_hold(colouring, &self.targets, Cell::Stone(self.defender))
    }

    /// Whether each target point holds the defender's colour.
    pub(crate) fn targets_stand(&self) -> bool
        ensures { result ≡ targets_stand self.now.state }
    {
        if self.has_many {
            return self.stand_in(&self.played.colouring());
        }
        for point in self.targets.iter() {
            if !self.played.cell(point).is_stone_of(self.defender) {
                return false;
            }
        }
        true
    }

    pub fn size(&self) -> Size
        ensures { result ≡ self.now.state.game.size }
    {
        self.played.size()
    }

    /// Whether the point is an empty point of the region.
    pub fn is_open(&self, point: Point) -> bool
        requires { IsOn self.now.state.game.size point }
        ensures { result
            ≡ holds_point self.now.state.game.region (number_of self.now.state.game.size point) &&
            same_cell (cell_at self.now.state.colouring (number_of self.now.state.game.size point))
            Empty }
    {
        self.region.has(point) && self.played.cell(point).is_empty()
    }

    /// Who has won if this colouring is on the board after a move.
    pub(crate) fn winner_at(&self, colouring: &Colouring) -> Option<Colour>
        requires { side_of colouring.now ≡ self.now.state.game.size }
        ensures { result ≡ over (record self.now.state { colouring = colouring.now; passes = 0 }) }
    {
        if self.stand_in(colouring) {
            None
        } else {
            Some(self.defender.opponent())
        }
    }

    /// Who has won after one more pass.
    pub(crate) fn winner_after_pass(&self) -> Option<Colour>
        ensures { result ≡ over (next self.now.state pass) }
    {
        let stands = self.targets_stand();
        if !stands {
            Some(self.defender.opponent())
        } else if self.played.passes() == 1 {
            Some(self.defender)
        } else {
            None
        }
    }

    /// Makes the turn. If memory is refused, nothing changes.
    pub fn after(&mut self, turn: Turn) -> Result<(), AllocError>
        requires open { over self.old.state ≡ None }
        requires legal { IsTrue (legal self.old.state (ply_of self.old.state.game.size turn)) }
        ensures ok { OnOk result
            (self.new ≡ record {
              state = next self.old.state (ply_of self.old.state.game.size turn);
              before = self.old.state ∷ self.old.before;
            }) }
        ensures err { OnErr result (self.new ≡ self.old) }
    {
        if self.played.play(self.mover, turn).is_err() {
            return Err(AllocError);
        }
        self.mover = self.mover.opponent();
        Ok(())
    }

    /// Makes the turn if it is legal, and returns whether it was. Nothing changes if it is not legal or memory is refused. A move
    /// is played only once.
    pub fn try_after(&mut self, turn: Turn) -> Result<bool, AllocError>
        requires open { over self.old.state ≡ None }
        ensures legal { IfOk result
            (λ made. made ≡ legal self.old.state (ply_of self.old.state.game.size turn)) }
        ensures state { IfOk result
            (λ made. self.new ≡ line_if made self.old (ply_of self.old.state.game.size turn)) }
        ensures err { OnErr result (self.new ≡ self.old) }
    {
        match turn {
            Turn::Pass => {
                self.after(Turn::Pass)?;
                Ok(true)
            }
            Turn::At(point) => {
                if !self.size().holds(point) {
                    return Ok(false);
                }
                if !self.is_open(point) {
                    return Ok(false);
                }
                self.try_move(point)
            }
        }
    }

    /// Makes the move at an empty point of the region if it repeats nothing, and returns whether it was made.
    pub(crate) fn try_move(&mut self, point: Point) -> Result<bool, AllocError>
        requires on_board { IsOn self.old.state.game.size point }
        requires free { (holds_point self.old.state.game.region
            (number_of self.old.state.game.size point) && same_cell
            (cell_at self.old.state.colouring (number_of self.old.state.game.size point)) Empty)
            ≡ true }
        ensures legal { IfOk result
            (λ made. made ≡ legal self.old.state
            (move (number_of self.old.state.game.size point))) }
        ensures state { IfOk result
            (λ made. self.new ≡ line_if made self.old
            (move (number_of self.old.state.game.size point))) }
        ensures err { OnErr result (self.new ≡ self.old) }
    {
        if let Err(fault) = self.played.play(self.mover, Turn::At(point)) {
            if repeats(fault) {
                return Ok(false);
            }
            return Err(AllocError);
        }
        self.mover = self.mover.opponent();
        Ok(true)
    }

    /// Takes the last turn back.
    pub fn back(&mut self)
        requires { 0 < length self.old.before }
        ensures { self.old.before ≡ self.new.state ∷ self.new.before }
    {
        let _done = self.played.undo();
        self.mover = self.mover.opponent();
    }

    /// The board, which holds the colouring.
    pub fn board(&self) -> &B
        ensures { B.content result.now ≡ self.now.state.colouring }
    {
        self.played.board()
    }

    pub fn colouring(&self) -> Colouring
        ensures { result ≡ self.now.state.colouring }
    {
        self.played.colouring()
    }

    /// The key of the colouring.
    pub fn key(&self) -> u64
        ensures { result ≡ key_of self.now.state.colouring }
    {
        self.played.key()
    }

    pub fn mover(&self) -> Colour
        ensures { result ≡ self.now.state.mover }
    {
        self.mover
    }

    /// The passes in a row.
    pub fn passes(&self) -> u64
        ensures { result ≡ self.now.state.passes }
    {
        self.played.passes()
    }

    /// The place of the colouring among those that have occurred.
    pub fn holds(&self, colouring: &Colouring) -> Option<usize>
        ensures { result ≡ place_in self.now.state.history colouring.now }
    {
        self.played.seen().holds(colouring)
    }
}
