//! A line of play from the problem's state, with the positions that have occurred before its end.

use crate::past::Past;
use crate::play::{Move, Play};
use crate::refusal::Refusal;
use go_points::Turn;
use pn_table::Key;
use std::alloc::{AllocError, Global};
use target_game::Problem;

/// What taking back a turn of the line restores.
#[derive(Clone, Copy)]
struct Before {
    end: Key,
    /// Whether the turn led to a new position.
    is_new: bool,
}

/// A line of play: the game at its end, and what has occurred before.
#[derive(Drop)]
pub struct Line {
    play: Play,
    past: Past,
    turns: Vec<Before>,
    end: Key,
}

impl Line {
    /// The line without turns.
    pub fn of(alloc: Global, problem: &Problem) -> Result<Line, AllocError> {
        let past = Past::of(alloc, problem)?;
        let play = Play::of(alloc, problem)?;
        let end = play.key();
        Ok(Line {
            play,
            past,
            turns: Vec::new(alloc),
            end,
        })
    }

    /// How many turns it has.
    pub fn len(&self) -> usize {
        self.turns.len()
    }

    /// The key of the state at its end.
    pub fn end(&self) -> Key {
        self.end
    }

    pub fn past(&self) -> &Past {
        &self.past
    }

    /// Adds a turn that leads to this state. If it is not legal or memory is refused, nothing changes.
    pub fn go(&mut self, turn: Turn, next: Key) -> Result<(), Refusal> {
        let is_new = match turn {
            Turn::Pass => false,
            Turn::At(_) => self.past.add(next.position)?,
        };
        let end = self.end;
        if self.turns.push(Before { end, is_new }).is_err() {
            self.forget(is_new);
            return Err(Refusal::Memory);
        }
        let refusal = match self.play.go(turn) {
            Ok(true) => {
                self.end = next;
                return Ok(());
            }
            Ok(false) => Refusal::Fault,
            Err(_) => Refusal::Memory,
        };
        self.turns.pop();
        self.forget(is_new);
        Err(refusal)
    }

    fn forget(&mut self, is_new: bool) {
        if is_new {
            self.past.take_last();
        }
    }

    /// Takes the last turn back, if there is one.
    pub fn back(&mut self) {
        if let Some(before) = self.turns.pop() {
            self.play.back();
            self.forget(before.is_new);
            self.end = before.end;
        }
    }

    /// Takes turns back until the line has this many.
    pub fn back_to(&mut self, turns: usize) {
        for _ in turns..self.turns.len() {
            self.back();
        }
    }

    /// The moves at its end, points ascending, including barred ones.
    pub fn list_moves(&self, moves: &mut Vec<Move>) -> Result<(), AllocError> {
        self.play.list_moves(&self.past, moves)
    }

    pub fn play(&self) -> &Play {
        &self.play
    }
}
