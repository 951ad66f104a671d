//! What is certain about a state without looking at its children, by the shape of its stones and by single turns.
//!
//! A question makes no state and is not a step. What is answered by shape is played out at the end, and a wrong guess costs steps
//! but never gives a wrong answer.

use crate::expanding::step_at;
use crate::frame::{Reason, State};
use crate::search::Search;
use local_board::{PlaceSet, Position, Room, Side, Step};
use state_proofs::key_after_move;

/// A state that is expanded, and the questions that are asked once for all its children.
#[derive(Clone, Copy)]
pub(crate) struct Parent<S> {
    pub(crate) state: State<S>,
    /// For each side, the places where a stone is put down and nothing else changes.
    pub(crate) quiet: Position<S>,
    /// The places where one more stone makes the defender live.
    lives: Option<S>,
    /// The attacker's turns that kill, or nearly kill, if the defender has passed.
    kills: Option<S>,
    /// The place of the turn that settled a child last. It often settles the next one, too, and is tried first.
    settled_by: Option<usize>,
}

/// An answer.
#[derive(Clone, Copy)]
pub(crate) struct Answer {
    /// Why the state is settled.
    pub(crate) reason: Option<Reason>,
    /// Who wins in that case.
    pub(crate) winner: Side,
    /// How many points are left where the defender could have an eye, if that was asked.
    pub(crate) eye_points: Option<u8>,
}

/// A turn after which a state is certain.
#[derive(Clone, Copy)]
pub(crate) struct NextTurn<S> {
    pub(crate) step: Step,
    pub(crate) state: State<S>,
    room: Room,
}

impl<S: PlaceSet> Parent<S> {
    pub(crate) fn of(state: State<S>, quiet: Position<S>) -> Parent<S> {
        Parent {
            state,
            quiet,
            lives: None,
            kills: None,
            settled_by: None,
        }
    }
}

/// The answer that the state is settled for this reason.
fn settled(reason: Reason, winner: Side, eye_points: Option<u8>) -> Answer {
    Answer {
        reason: Some(reason),
        winner,
        eye_points,
    }
}

impl<S: PlaceSet> Search<S> {
    /// What is certain about a child of the parent. `takes` says that the turn to it took stones, of either side.
    pub(crate) fn ask(&mut self, parent: &mut Parent<S>, child: State<S>, takes: bool) -> Answer {
        let mover = self.side(child.key.mover);
        if mover == Side::Defender && child.key.passes == 1 {
            return settled(Reason::Passes, Side::Defender, None);
        }
        if mover == Side::Attacker && self.taking_turn(child).is_some() {
            return settled(Reason::Takes, Side::Attacker, None);
        }
        if self.lives_by_shape(child.position) {
            return settled(Reason::Alive, Side::Defender, None);
        }
        if mover == Side::Defender && self.lives_by_turn(parent, child, takes) {
            return settled(Reason::Next, Side::Defender, None);
        }
        self.ask_eyes(parent, child, takes)
    }

    /// What the points for eyes say about the child.
    fn ask_eyes(&mut self, parent: &mut Parent<S>, child: State<S>, takes: bool) -> Answer {
        if !self.asks_death {
            return Answer {
                reason: None,
                winner: Side::Attacker,
                eye_points: None,
            };
        }
        let eyes = self.shapes.eyes(child.position);
        let eye_points = Some(eyes.eye_points);
        if eyes.is_dead {
            return settled(Reason::Dead, Side::Attacker, eye_points);
        }
        if self.side(child.key.mover) == Side::Attacker && self.dies_by_turn(parent, child, takes) {
            return settled(Reason::Next, Side::Attacker, eye_points);
        }
        Answer {
            reason: None,
            winner: Side::Attacker,
            eye_points,
        }
    }

    /// Whether the defender has a turn here after which he lives by his shape.
    fn lives_by_turn(&mut self, parent: &mut Parent<S>, child: State<S>, takes: bool) -> bool {
        if !self.asks_life {
            return false;
        }
        let at = if takes {
            self.shapes.board.region()
        } else {
            self.living_places(parent)
        };
        self.is_settled_next(parent, child, Side::Defender, at)
    }

    /// Whether the attacker has a turn here after which the defender cannot have two eyes.
    fn dies_by_turn(&mut self, parent: &mut Parent<S>, child: State<S>, takes: bool) -> bool {
        let at = if takes {
            self.shapes.board.region()
        } else {
            self.killing_places(parent)
        };
        self.is_settled_next(parent, child, Side::Attacker, at)
    }

    /// Whether the side has a turn at one of these places after which the child of the parent is certain.
    fn is_settled_next(
        &mut self,
        parent: &mut Parent<S>,
        child: State<S>,
        side: Side,
        at: S,
    ) -> bool {
        match self.next_turn(child, side, at, parent.settled_by) {
            Some(place) => {
                parent.settled_by = Some(place);
                true
            }
            None => false,
        }
    }

    /// The turn by which the attacker takes a target at once.
    pub(crate) fn taking_turn(&self, state: State<S>) -> Option<State<S>> {
        for place in self.shapes.board.takes(state.position).places() {
            let after = self.after_move_at(state, Side::Attacker, place);
            if !self.past.has(after.key.position) {
                return Some(after);
            }
        }
        None
    }

    /// The state after a move at this place.
    pub(crate) fn after_move_at(&self, state: State<S>, side: Side, place: usize) -> State<S> {
        let board = &self.shapes.board;
        let position = board.after(state.position, side, place);
        self.moved(state, position)
    }

    /// The state after a move that leads to this position.
    pub(crate) fn moved(&self, state: State<S>, position: Position<S>) -> State<S> {
        let number = self
            .shapes
            .board
            .key_from(state.position, state.key.position, position);
        State {
            position,
            key: key_after_move(state.key, number),
        }
    }

    /// Whether the defender is taken to live here, by his shape and with no more left to play than is allowed.
    pub(crate) fn lives_by_shape(&mut self, position: Position<S>) -> bool {
        if !self.asks_life {
            return false;
        }
        let lives = self.shapes.is_alive(position);
        if !lives || self.room == 0 {
            return lives;
        }
        let left = self.shapes.room_of_life(position);
        left.whole < self.room
    }

    /// The places where one more stone makes the defender live, if the attacker takes nothing before it: then the defender still has
    /// these stones, and whether they live does not depend on the attacker's.
    fn living_places(&mut self, parent: &mut Parent<S>) -> S {
        if let Some(places) = parent.lives {
            return places;
        }
        let defender = parent.state.position.defender;
        let empty = self.shapes.board.empty(parent.state.position);
        let mut found = S::empty();
        for place in empty.and(self.shapes.board.region()).places() {
            if self.shapes.may_live(defender.with(place)) {
                found = found.with(place);
            }
        }
        parent.lives = Some(found);
        found
    }

    /// The attacker's turns that kill, or nearly kill, if the defender has passed. It is a guess, and what it misses is searched.
    fn killing_places(&mut self, parent: &mut Parent<S>) -> S {
        if let Some(places) = parent.kills {
            return places;
        }
        let position = parent.state.position;
        let empty = self.shapes.board.empty(position);
        let mut found = S::empty();
        for place in empty.and(self.shapes.board.region()).places() {
            let played = self
                .shapes
                .board
                .played(position, Side::Attacker, place, parent.quiet.attacker);
            if let Some(after) = played {
                if self.shapes.eyes(after).is_nearly_dead {
                    found = found.with(place);
                }
            }
        }
        parent.kills = Some(found);
        found
    }

    /// Whether the side has reached its aim by shape.
    fn is_certain(&mut self, side: Side, position: Position<S>) -> bool {
        match side {
            Side::Defender => self.lives_by_shape(position),
            Side::Attacker => self.asks_death && self.shapes.eyes(position).is_dead,
        }
    }

    /// A place among these where the side has a turn after which the state is certain, and whose result has not occurred. The place
    /// `first` is tried before the others.
    fn next_turn(
        &mut self,
        state: State<S>,
        side: Side,
        at: S,
        first: Option<usize>,
    ) -> Option<usize> {
        let empty = self.shapes.board.empty(state.position);
        let mut rest = empty.and(self.shapes.board.region()).and(at);
        if let Some(place) = first {
            if rest.has(place) {
                if self.certain_after(state, side, place).is_some() {
                    return first;
                }
                rest = rest.minus(S::empty().with(place));
            }
        }
        for place in rest.places() {
            if self.certain_after(state, side, place).is_some() {
                return Some(place);
            }
        }
        None
    }

    /// The turn of that kind that leaves the side least to play.
    pub(crate) fn best_next_turn(&mut self, state: State<S>, side: Side) -> Option<NextTurn<S>> {
        let mut best: Option<NextTurn<S>> = None;
        let empty = self.shapes.board.empty(state.position);
        for place in empty.and(self.shapes.board.region()).places() {
            if let Some(after) = self.certain_after(state, side, place) {
                let room = self.room_left(&after, side, place);
                let turn = NextTurn {
                    step: step_at(place),
                    state: after,
                    room,
                };
                best = better_turn(best, turn);
            }
        }
        best
    }

    /// The state after the side's turn at this place, if it is certain and its position has not occurred.
    fn certain_after(&mut self, state: State<S>, side: Side, place: usize) -> Option<State<S>> {
        // Mostly this tells what the position after the turn would, which costs more.
        if side == Side::Defender && !self.may_live_with(&state, place) {
            return None;
        }
        let position = self.shapes.board.after(state.position, side, place);
        if position == state.position || !self.is_certain(side, position) {
            return None;
        }
        let after = self.moved(state, position);
        if self.past.has(after.key.position) {
            return None;
        }
        Some(after)
    }

    /// Whether the defender's stones and one at this place live by their shape.
    fn may_live_with(&mut self, state: &State<S>, place: usize) -> bool {
        self.shapes.may_live(state.position.defender.with(place))
    }

    /// What the side's turn at this place, which led to this state, leaves to play.
    fn room_left(&mut self, after: &State<S>, side: Side, place: usize) -> Room {
        match side {
            Side::Defender => self.shapes.room_of_life(after.position),
            Side::Attacker => self.shapes.board.room_of_death(after.position, place),
        }
    }
}

/// The better of the two turns.
fn better_turn<S: PlaceSet>(best: Option<NextTurn<S>>, turn: NextTurn<S>) -> Option<NextTurn<S>> {
    match best {
        Some(found) if found.room <= turn.room => Some(found),
        _ => Some(turn),
    }
}
