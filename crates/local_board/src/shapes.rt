//! Questions about shape, with the latest answers.

use crate::board::Board;
use crate::eyes::Eyes;
use crate::latest::Latest;
use crate::life::LifeParts;
use crate::place_set::PlaceSet;
use crate::position::{Position, Side};
use crate::room::Room;
use std::alloc::Global;

/// What depends only on the attacker's permanent stones.
#[derive(Clone, Copy)]
struct Reached<S> {
    inside: S,
    near: S,
}

/// A board, and the latest answers.
#[derive(Drop)]
pub struct Shapes<S> {
    pub board: Board<S>,
    /// The permanent ones of the attacker's stones.
    held: Latest<S, S>,
    /// What the attacker's permanent stones reach.
    reached: Latest<S, Reached<S>>,
    /// Whether the defender's stones live.
    living: Latest<S, bool>,
    asked: Latest<Position<S>, Eyes>,
    parts: LifeParts<S>,
}

impl<S: PlaceSet> Shapes<S> {
    /// The questions about this board. None has been asked yet.
    pub fn of(alloc: Global, board: Board<S>) -> Shapes<S> {
        Shapes {
            board,
            held: Latest::new(alloc),
            reached: Latest::new(alloc),
            living: Latest::new(alloc),
            asked: Latest::new(alloc),
            parts: LifeParts::none(alloc),
        }
    }

    /// Whether the defender's stones live by their shape, in whatever position: stones of the attacker that filled an eye would have
    /// no liberty.
    pub fn may_live(&mut self, defender: S) -> bool {
        let mixed = defender.mixed();
        if let Some(lives) = self.living.find(mixed, defender) {
            return lives;
        }
        let lives = self.board.lives(defender, &mut self.parts);
        self.living.add(mixed, defender, lives);
        lives
    }

    /// Whether no target can ever be taken, by the shape of the defender's stones. It is `false` if a target is off the board.
    pub fn is_alive(&mut self, position: Position<S>) -> bool {
        !self.board.is_taken(position) && self.may_live(position.defender)
    }

    /// How much a living defender has left to do.
    pub fn room_of_life(&mut self, position: Position<S>) -> Room {
        self.board.room_of_life(position, &mut self.parts)
    }

    /// A guess about the defender's eyes when he is to move.
    pub fn eyes(&mut self, position: Position<S>) -> Eyes {
        let mixed = position.mixed();
        if let Some(eyes) = self.asked.find(mixed, position) {
            return eyes;
        }
        let permanent = self.permanent(position.attacker);
        let reached = self.reached_by(permanent);
        let eyes = self
            .board
            .guess_eyes(position, permanent, reached.inside, reached.near);
        self.asked.add(mixed, position, eyes);
        eyes
    }

    /// The permanent ones of the attacker's stones.
    fn permanent(&mut self, attacker: S) -> S {
        let mixed = attacker.mixed();
        if let Some(permanent) = self.held.find(mixed, attacker) {
            return permanent;
        }
        let permanent = self.board.permanent(attacker, Side::Attacker);
        self.held.add(mixed, attacker, permanent);
        permanent
    }

    /// What the attacker's permanent stones reach.
    fn reached_by(&mut self, permanent: S) -> Reached<S> {
        let mixed = permanent.mixed();
        if let Some(reached) = self.reached.find(mixed, permanent) {
            return reached;
        }
        let reached = Reached {
            inside: self.board.inside_of(permanent),
            near: self.board.beside(permanent),
        };
        self.reached.add(mixed, permanent, reached);
        reached
    }
}
