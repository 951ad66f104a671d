//! Play on the problem's states, as the search needs it. Every call may be made at any time.

ghost use Rattle.std.specs.Prelude.{◌≡◌, ◌≤◌, length, true};
ghost use Rattle.go_points.specs.Grid.{cell_at, same_cell};
ghost use Rattle.go_points.specs.Place.{IsOn, number_of};
ghost use Rattle.go_points.specs.declared.Cell.TheVariants.{Empty};

use crate::past::Past;
use crate::quiet::QuietMoves;
use crate::rows::Rows;
use go_points::{Colour, Colouring, MAX_POINTS, Point, Turn};
use pn_table::Key;
use std::alloc::{AllocError, Global};
use stone_key::{key_of, stone_word};
use target_game::{PlayState, Problem, State};

/// A move of the mover at an open point that changes the colouring.
#[derive(Clone, Copy)]
pub struct Move {
    pub point: Point,
    /// The key of the colouring after it.
    pub position: u64,
    /// Whether that colouring has occurred before, which makes the move illegal.
    pub is_barred: bool,
    /// Whether the attacker has won by it.
    pub wins: bool,
}

/// The game at the end of a line of play.
#[derive(Drop)]
pub struct Play {
    state: PlayState,
    /// How many turns may be taken back.
    made: usize,
    /// The points at which either side may move.
    region: Rows,
    ghost within: { made ≤ length state.before },
}

impl Play {
    /// The start of the problem.
    pub fn of(alloc: Global, problem: &Problem) -> Result<Play, AllocError> {
        let state = State::of(alloc, problem)?;
        Ok(Play {
            state,
            made: 0,
            region: Rows::of(problem.region(), problem.size()),
        })
    }

    /// The state with only this colouring in its history. `None` if there is no such state.
    pub fn at(
        alloc: Global,
        problem: &Problem,
        colouring: &Colouring,
        mover: Colour,
        passes: u8,
    ) -> Option<Play> {
        if colouring.size() != problem.size() || passes > 1 {
            return None;
        }
        match State::at(alloc, problem, colouring, mover, passes as u64) {
            Ok(state) => Some(Play {
                state,
                made: 0,
                region: Rows::of(problem.region(), problem.size()),
            }),
            Err(_) => None,
        }
    }

    /// Starts again at the state with only this colouring in its history, and returns whether there is one; if not, no turn can be
    /// taken back any more. The board is changed only where the colouring differs, which is faster than `at`.
    pub fn restart(
        &mut self,
        alloc: Global,
        colouring: &Colouring,
        mover: Colour,
        passes: u8,
    ) -> bool {
        self.made = 0;
        if colouring.size() != self.state.size() || passes > 1 {
            return false;
        }
        self.state
            .restart(alloc, colouring, mover, passes as u64)
            .is_ok()
    }

    /// Makes the turn if nobody has won and it is legal, and returns whether it was made.
    pub fn go(&mut self, turn: Turn) -> Result<bool, AllocError> {
        if self.state.over().is_some() || self.made == usize::MAX {
            return Ok(false);
        }
        if !self.state.try_after(turn)? {
            return Ok(false);
        }
        self.made += 1;
        Ok(true)
    }

    /// Takes the last turn back, if there is one.
    pub fn back(&mut self) {
        if self.made > 0 {
            self.state.back();
            self.made -= 1;
        }
    }

    /// The key of the state. If nobody has won, at most one pass has just been made.
    pub fn key(&self) -> Key {
        Key {
            position: self.state.key(),
            mover: self.state.mover(),
            passes: if self.state.passes() == 0 { 0 } else { 1 },
        }
    }

    pub fn colouring(&self) -> Colouring {
        self.state.colouring()
    }

    /// Lists the mover's moves, points ascending, including barred ones. There are none if somebody has won. `past` has the
    /// positions that have occurred in this play.
    pub fn list_moves(&self, past: &Past, moves: &mut Vec<Move>) -> Result<(), AllocError> {
        moves.clear();
        if self.state.over().is_some() {
            return Ok(());
        }
        let quiet = QuietMoves::of(&self.state.colouring(), self.state.mover());
        for row in 0..self.state.size().rows() {
            self.add_row(&quiet, row, past, moves)?;
        }
        Ok(())
    }

    /// Adds the mover's moves in the row.
    fn add_row(
        &self,
        quiet: &QuietMoves,
        row: u8,
        past: &Past,
        moves: &mut Vec<Move>,
    ) -> Result<(), AllocError> {
        let size = self.state.size();
        let open = quiet.empty(row) & self.region.at(row);
        let surely = quiet.quiet(row);
        for column in 0..size.rows() {
            if open >> column & 1 == 1 {
                let is_quiet = surely >> column & 1 == 1;
                if let Some(found) = self.move_in(column, row, is_quiet, past) {
                    moves.push(found)?;
                }
            }
        }
        Ok(())
    }

    /// The move at an open point. `None` if it changes nothing. If a quiet move makes a position whose key has not occurred, that
    /// position has not, and the targets stand as before.
    fn move_in(&self, column: u8, row: u8, is_quiet: bool, past: &Past) -> Option<Move> {
        let size = self.state.size();
        let point = size.point(column, row)?;
        let present = self.state.key();
        if is_quiet {
            prove!(size.area() <= MAX_POINTS);
            let position = present ^ stone_word(point.number(size), self.state.mover());
            if !past.has(position) {
                return Some(Move {
                    point,
                    position,
                    is_barred: false,
                    wins: false,
                });
            }
        }
        if !self.state.is_open(point) {
            return None;
        }
        let found = move_at(&self.state, point);
        if found.position == present {
            return None;
        }
        Some(found)
    }
}

/// The move at the open point.
fn move_at(state: &PlayState, point: Point) -> Move
    requires on_board { IsOn state.now.state.game.size point }
    requires empty { same_cell
        (cell_at state.now.state.colouring (number_of state.now.state.game.size point)) Empty
        ≡ true }
{
    match state.child(Turn::At(point)) {
        Some(child) => Move {
            point,
            position: child.key,
            is_barred: false,
            wins: child.winner.is_some(),
        },
        None => barred_move(state, point),
    }
}

/// The move at the open point, which is barred. Most often it is a suicide of one stone, and changes nothing.
fn barred_move(state: &PlayState, point: Point) -> Move
    requires on_board { IsOn state.now.state.game.size point }
    requires empty { same_cell
        (cell_at state.now.state.colouring (number_of state.now.state.game.size point)) Empty
        ≡ true }
{
    let after = state.result(point);
    let position = if after == state.colouring() {
        state.key()
    } else {
        key_of(&after)
    };
    Move {
        point,
        position,
        is_barred: true,
        wins: false,
    }
}

/// Adds the positions after those of the moves that are barred.
pub fn list_barred(moves: &[Move], barred: &mut Vec<u64>) -> Result<(), AllocError> {
    for played in moves {
        if played.is_barred {
            barred.push(played.position)?;
        }
    }
    Ok(())
}

/// The move of this turn. `None` if it is a pass.
pub fn move_of(moves: &[Move], turn: Turn) -> Option<Move> {
    let Turn::At(point) = turn else {
        return None;
    };
    for played in moves {
        if played.point == point {
            return Some(*played);
        }
    }
    None
}
