//! Playing out a state where the defender lives by his shape: he takes away the attacker's room, then passes.

ghost use Rattle.std.specs.Prelude.{◌≡◌, ◌≤◌, ◌+◌, true, IfOk};
ghost use Rattle.local_search.specs.declared.finish.Entered.TheVariants.{Begun};
ghost use Rattle.state_proofs.specs.Work.{work};

use crate::expanding::step_at;
use crate::finish::{Due, Entered, Finish, Goal, Needed};
use crate::frame::{State, side_of};
use crate::values::Turned;
use go_points::Colour;
use local_board::{PlaceSet, Side, Step};
use state_proofs::{Form, Stop};
use std::alloc::AllocError;

impl<S: PlaceSet> Finish<S> {
    /// Begins with a state where the defender lives. Each such state is a step, if it has no proof yet and is no leaf.
    pub(crate) fn enter_life(&mut self, state: State<S>) -> Result<Entered, Stop>
        ensures step { IfOk result (λ e. e ≡ Begun
            → self.new.steps.left + 1 ≡ self.old.steps.left) }
        ensures leaf { self.old.search.has_leaves ≡ true
            → self.new.steps ≡ self.old.steps }
        ensures work { work self.new.steps ≤ work self.old.steps }
    {
        if let Some(known) = self.search.proof_here(state.key) {
            return Ok(Entered::Done(known));
        }
        if self.search.has_leaves {
            return Ok(Entered::Done(self.search.proof_by_shape(state, Side::Defender)?));
        }
        self.steps.take()?;
        if side_of(self.search.attacker, state.key.mover) == Side::Attacker {
            return self.begin_attack_on_life(state);
        }
        if state.key.passes == 1 {
            return Ok(Entered::Done(self.search.proof_by_pass(state, true)?));
        }
        self.begin_life(state)
    }

    fn defender(&self) -> Colour {
        self.search.attacker.opponent()
    }

    /// Begins with the defender's turn.
    fn begin_life(&mut self, state: State<S>) -> Result<Entered, Stop>
        ensures steps { self.new.steps ≡ self.old.steps }
    {
        let due = self.due.len();
        let winner = self.defender();
        if let Some((step, number)) = self.known_turn(state) {
            let goal = Goal::Known(number);
            self.due.push(Due { step, goal })?;
            return self.begin(state, winner, Form::Turn, Needed::All, due, false);
        }
        let lives = self.search.shapes.is_alive(state.position);
        let best = self.living_turn(state, lives);
        if best.step == Step::Pass && !lives {
            return Ok(Entered::Failed);
        }
        let step = best.step;
        let goal = Goal::Life;
        self.due.push(Due { step, goal })?;
        self.begin(state, winner, Form::Turn, Needed::All, due, false)
    }

    /// The defender's turn after which he lives and least is left to play. It is his pass if he lives after that and it leaves no
    /// more.
    fn living_turn(&mut self, state: State<S>, lives: bool) -> Turned
        ensures steps { self.new.steps ≡ self.old.steps }
    {
        let mut best = Turned::worst();
        if lives {
            best.room = self.search.shapes.room_of_life(state.position);
            let passed = self.search.after(state, Step::Pass);
            best.value = self.value(passed, best.room.whole, u64::MAX);
        }
        for place in self.playable(state).places() {
            if let Some(turn) = self.turn_of_life(state, place, best.value) {
                if turn.is_before(best) {
                    best = turn;
                }
            }
        }
        best
    }

    /// The defender's move at this place, with what it leaves to play, if he lives after it.
    fn turn_of_life(&mut self, state: State<S>, place: usize, most: u64) -> Option<Turned>
        ensures steps { self.new.steps ≡ self.old.steps }
    {
        let after = self.search.after_move_at(state, Side::Defender, place);
        if after.position == state.position || self.search.past.has(after.key.position) {
            return None;
        }
        if !self.search.shapes.is_alive(after.position) {
            return None;
        }
        let room = self.search.shapes.room_of_life(after.position);
        Some(Turned {
            step: step_at(place),
            value: self.value(after, room.whole, most),
            room,
        })
    }

    /// Begins with all turns of the attacker.
    fn begin_attack_on_life(&mut self, state: State<S>) -> Result<Entered, Stop>
        ensures steps { self.new.steps ≡ self.old.steps }
    {
        let due = self.due.len();
        let is_barred = self.list_turns(state, Goal::Life)?;
        let goal = if state.key.passes == 0 {
            Goal::Life
        } else {
            Goal::Won
        };
        let step = Step::Pass;
        self.due.push(Due { step, goal })?;
        let winner = self.defender();
        self.begin(state, winner, Form::Replies, Needed::All, due, is_barred)
    }

    /// Lists all moves of the mover as due with this goal, or as ends of the game if they take a target. Returns whether the past
    /// bars one.
    pub(crate) fn list_turns(&mut self, state: State<S>, goal: Goal) -> Result<bool, AllocError>
        ensures steps { self.new.steps ≡ self.old.steps }
    {
        let side = side_of(self.search.attacker, state.key.mover);
        let mut is_barred = false;
        for place in self.playable(state).places() {
            let after = self.search.after_move_at(state, side, place);
            if after.position != state.position {
                if self.search.past.has(after.key.position) {
                    is_barred = true;
                } else {
                    self.list_turn(place, after, goal)?;
                }
            }
        }
        Ok(is_barred)
    }

    fn list_turn(&mut self, place: usize, after: State<S>, goal: Goal) -> Result<(), AllocError>
        ensures steps { self.new.steps ≡ self.old.steps }
    {
        let step = step_at(place);
        let goal = if self.search.shapes.board.is_taken(after.position) {
            Goal::Won
        } else {
            goal
        };
        self.due.push(Due { step, goal })?;
        Ok(())
    }
}
