//! Playing out a state where the defender cannot have two eyes: the attacker fills points, in such a way that the defender still
//! cannot have them.

ghost use Rattle.std.specs.Prelude.{◌≡◌, ◌≤◌, ◌+◌, IfOk};
ghost use Rattle.local_search.specs.declared.finish.Entered.TheVariants.{Begun};
ghost use Rattle.state_proofs.specs.Work.{work};

use crate::expanding::step_at;
use crate::finish::{Due, Entered, Finish, Goal, Needed};
use crate::frame::{State, side_of};
use crate::values::Turned;
use local_board::{PlaceSet, Side, Step};
use state_proofs::{Form, Stop};
use std::alloc::AllocError;

/// How many turns are tried.
const MAX_TRIED: usize = 3;

/// The best turns, the best first.
#[derive(Clone, Copy)]
struct BestTurns {
    first: Option<Turned>,
    second: Option<Turned>,
    third: Option<Turned>,
}

impl BestTurns {
    /// The turns with this one, if it is one of the best. Among equal turns the earlier comes first.
    fn with(self, turn: Turned) -> BestTurns {
        if is_before(turn, self.first) {
            return BestTurns {
                first: Some(turn),
                second: self.first,
                third: self.second,
            };
        }
        if is_before(turn, self.second) {
            return BestTurns {
                first: self.first,
                second: Some(turn),
                third: self.second,
            };
        }
        if is_before(turn, self.third) {
            return BestTurns {
                first: self.first,
                second: self.second,
                third: Some(turn),
            };
        }
        self
    }

    /// The turn at this place among them.
    fn get(self, place: usize) -> Option<Turned> {
        match place {
            0 => self.first,
            1 => self.second,
            _ => self.third,
        }
    }
}

fn is_before(turn: Turned, other: Option<Turned>) -> bool {
    match other {
        Some(other) => turn.is_before(other),
        None => true,
    }
}

impl<S: PlaceSet> Finish<S> {
    /// Begins with a state where the defender cannot have two eyes. Each such state is a step, if it has no proof yet. It fails if
    /// the state was wrongly taken for dead, or is not dead with this past.
    pub(crate) fn enter_death(&mut self, state: State<S>) -> Result<Entered, Stop>
        ensures step { IfOk result (λ e. e ≡ Begun
            → self.new.steps.left + 1 ≡ self.old.steps.left) }
        ensures work { work self.new.steps ≤ work self.old.steps }
    {
        if let Some(known) = self.search.proof_here(state.key) {
            if self.is_attackers(known) {
                return Ok(Entered::Done(known));
            }
            return Ok(Entered::Failed);
        }
        if side_of(self.search.attacker, state.key.mover) == Side::Attacker {
            self.steps.take()?;
            return self.begin_attack(state);
        }
        if state.key.passes == 1 {
            return Ok(Entered::Failed);
        }
        self.steps.take()?;
        let due = self.due.len();
        let is_barred = self.list_turns(state, Goal::Death)?;
        let step = Step::Pass;
        let goal = Goal::Death;
        self.due.push(Due { step, goal })?;
        let winner = self.search.attacker;
        self.begin(state, winner, Form::Replies, Needed::All, due, is_barred)
    }

    /// Begins with the attacker's turn: he takes a target, goes to a state that is proved, or fills a point.
    fn begin_attack(&mut self, state: State<S>) -> Result<Entered, Stop>
        ensures steps { self.new.steps ≡ self.old.steps }
    {
        if self.search.taking_turn(state).is_some() {
            return Ok(Entered::Done(self.search.proof_by_taking(state, true)?));
        }
        let due = self.due.len();
        let winner = self.search.attacker;
        if let Some((step, number)) = self.known_turn(state) {
            let goal = Goal::Known(number);
            self.due.push(Due { step, goal })?;
            return self.begin(state, winner, Form::Turn, Needed::All, due, false);
        }
        self.list_best_turns(state)?;
        self.begin(state, winner, Form::Turn, Needed::One, due, false)
    }

    /// Lists the attacker's best turns as due.
    fn list_best_turns(&mut self, state: State<S>) -> Result<(), AllocError>
        ensures steps { self.new.steps ≡ self.old.steps }
    {
        let best = self.best_turns(state);
        for place in 0..MAX_TRIED {
            if let Some(turn) = best.get(place) {
                let step = turn.step;
                let goal = Goal::Death;
                self.due.push(Due { step, goal })?;
            }
        }
        Ok(())
    }

    /// Among the attacker's turns after which the defender cannot have two eyes, those that leave least to play.
    fn best_turns(&mut self, state: State<S>) -> BestTurns
        ensures steps { self.new.steps ≡ self.old.steps }
    {
        let mut best = BestTurns {
            first: None,
            second: None,
            third: None,
        };
        for place in self.playable(state).places() {
            if let Some(turn) = self.turn_of_death(state, place) {
                best = best.with(turn);
            }
        }
        best
    }

    /// The attacker's move at this place, with what it leaves to play, if the defender cannot have two eyes after it.
    fn turn_of_death(&mut self, state: State<S>, place: usize) -> Option<Turned>
        ensures steps { self.new.steps ≡ self.old.steps }
    {
        let after = self.search.after_move_at(state, Side::Attacker, place);
        if after.position == state.position || self.search.past.has(after.key.position) {
            return None;
        }
        if !self.search.asks_death || !self.search.shapes.eyes(after.position).is_dead {
            return None;
        }
        let room = self
            .search
            .shapes
            .board
            .room_of_death(after.position, place);
        Some(Turned {
            step: step_at(place),
            value: self.value(after, room.whole, u64::MAX),
            room,
        })
    }
}
