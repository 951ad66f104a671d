//! Depth-first proof-number search.
//!
//! The line of play that is searched is a stack of frames, with the children of all of them in one list. The work goes down to the
//! child with the least weighed number for the mover, and comes back when the child is settled or its numbers reach their
//! thresholds. The moves of a state that was expanded are kept, so it need not be expanded again when the work comes back to it; it
//! is opened again, which counts too. A settled state becomes a proof, which is used again wherever its conditions on the past hold.
//!
//! Nothing is promised about the numbers: what is found is given to the checker.

ghost use Rattle.std.specs.Prelude.{◌≤◌};
ghost use Rattle.state_proofs.specs.Work.{work};

use crate::frame::{
    Child, Frame, Outcome, Reason, State, after_step, outcome_by, side_of, standing_of,
};
use crate::kept::KeptMoves;
use crate::numbers::{numbers_of, thresholds_below};
use crate::results::TurnResults;
use go_points::Colour;
use local_board::{Board, PlaceSet, Position, Shapes, Side, Step};
use pn_table::{Key, Numbers, Table};
use state_proofs::{
    Branch, Count, Form, MAX_LINE, Marks, MoverNumbers, Past, Proofs, Refusal, Standing, Steps,
    Stop, Thresholds, part_from,
};
use std::alloc::{AllocError, Global};
use std::num::NonZeroUsize;
use stone_key::key_of;
use target_game::Problem;

/// For how many positions there is room among those whose numbers were stored. If there are more, more of them are looked for in
/// vain.
const STORED: usize = 130_000;

/// A search on a board whose places sets of this kind hold.
#[derive(Drop)]
pub(crate) struct Search<S> {
    /// On the heap, so that the size of what holds them does not depend on the kind of sets.
    pub(crate) shapes: Box<Shapes<S>>,
    pub(crate) proofs: Proofs,
    /// What has occurred before the end of the line, and how many turns the line has.
    pub(crate) past: Past,
    pub(crate) turns: usize,
    pub(crate) attacker: Colour,
    /// Whether shapes are asked about at all. On a wide board a state has hundreds of children, and questions about each of them
    /// would take far longer than all else.
    pub(crate) asks_shapes: bool,
    /// Whether to ask who lives, and who cannot have two eyes, by shape; and how little must be left to play for a group to be
    /// taken to live (0 for any amount).
    pub(crate) asks_life: bool,
    pub(crate) asks_death: bool,
    pub(crate) room: u32,
    /// Whether a state where the defender lives by his shape is a leaf of the proof, and is not played out.
    pub(crate) has_leaves: bool,
    table: Table,
    /// The positions whose numbers were stored: most new states are not among them, and need not be looked for in the table.
    stored: Marks,
    pub(crate) kept: KeptMoves,
    pub(crate) results: TurnResults,
    pub(crate) frames: Vec<Frame<S>>,
    pub(crate) children: Vec<Child>,
    /// The branches of one proof.
    pub(crate) branches: Vec<Branch>,
    /// The barred positions of one state.
    pub(crate) barred: Vec<u64>,
}

impl<S: PlaceSet> Search<S> {
    /// A search that knows nothing yet, at the start of the problem, and its first state.
    pub(crate) fn of(
        alloc: Global,
        problem: &Problem,
        capacity: NonZeroUsize,
        asks_shapes: bool,
    ) -> Result<(Search<S>, State<S>), AllocError> {
        let (board, position) = Board::of(alloc, problem)?;
        let places = board.len();
        let mut stored = Marks::new(alloc);
        stored.make_room(capacity.get().min(STORED))?;
        let search = Search {
            shapes: Box::new(alloc, Shapes::of(alloc, board))?,
            proofs: Proofs::new(alloc),
            past: Past::of(alloc, problem)?,
            turns: 0,
            attacker: problem.defender().opponent(),
            asks_shapes,
            asks_life: asks_shapes,
            asks_death: asks_shapes,
            room: 0,
            has_leaves: false,
            table: Table::with_capacity(alloc, capacity)?,
            stored,
            kept: KeptMoves::new(alloc),
            results: TurnResults::of(alloc, places)?,
            frames: Vec::new(alloc),
            children: Vec::new(alloc),
            branches: Vec::new(alloc),
            barred: Vec::new(alloc),
        };
        Ok((search, first_state(problem, position)))
    }

    /// The side that has this colour.
    pub(crate) fn side(&self, colour: Colour) -> Side {
        side_of(self.attacker, colour)
    }

    /// The colour of this side.
    pub(crate) fn colour(&self, side: Side) -> Colour {
        match side {
            Side::Attacker => self.attacker,
            Side::Defender => self.attacker.opponent(),
        }
    }

    /// The state after this turn.
    pub(crate) fn after(&self, state: State<S>, step: Step) -> State<S> {
        match step {
            Step::Pass => State {
                position: state.position,
                key: after_step(state.key, step, state.key.position),
            },
            Step::At(place) => {
                self.after_move_at(state, self.side(state.key.mover), place as usize)
            }
        }
    }

    /// Adds a turn to the line, which leads to this position.
    pub(crate) fn go(&mut self, step: Step, position: u64) -> Result<(), Refusal> {
        if self.turns >= MAX_LINE {
            return Err(Refusal::Limit);
        }
        if step != Step::Pass && !self.past.add(position)? {
            return Err(Refusal::Fault);
        }
        self.turns = self.turns.saturating_add(1);
        Ok(())
    }

    /// Takes the last turn of the line back, which was this one.
    pub(crate) fn back(&mut self, step: Step) {
        if step != Step::Pass {
            self.past.take_last();
        }
        self.turns = self.turns.saturating_sub(1);
    }

    /// Takes turns back until the line has this many turns, and this many positions have occurred.
    pub(crate) fn back_to(&mut self, turns: usize, positions: usize) {
        for _ in positions..self.past.len() {
            self.past.take_last();
        }
        self.turns = turns;
    }

    /// Forgets what was found: the proofs can no longer be found, and states are expanded again.
    pub(crate) fn forget(&mut self) {
        self.proofs.hide_all();
        self.kept.forget();
    }

    /// A proof of a state at the end of the line that holds there.
    pub(crate) fn proof_here(&self, key: Key) -> Option<u32> {
        self.proofs.find(key, &self.past, self.turns)
    }

    /// The proof of a state one turn further that holds there.
    pub(crate) fn proof_after(&self, key: Key) -> Option<u32> {
        self.proofs
            .find(key, &self.past, self.turns.saturating_add(1))
    }

    /// The numbers of the state, if the table has them.
    pub(crate) fn look(&mut self, key: Key) -> Option<Numbers> {
        if self.stored.may_have(key.position) {
            self.table.look(key)
        } else {
            None
        }
    }

    /// The proof of a state one turn further that holds there, and who wins by it.
    pub(crate) fn proved(&self, key: Key) -> Option<(Colour, u32)> {
        let number = self.proof_after(key)?;
        let proof = self.proofs.get(number)?;
        Some((proof.winner, number))
    }

    /// Searches the state at the end of the line, to which this turn has led, until it is settled. The line is then as it was.
    pub(crate) fn settle(
        &mut self,
        state: State<S>,
        last: Step,
        steps: &mut Steps,
    ) -> Result<u32, Stop>
        ensures work { work steps.new ≤ work steps.old }
    {
        let turns = self.turns;
        let positions = self.past.len();
        self.frames.clear();
        self.children.clear();
        let settled = self.search(state, last, steps);
        self.back_to(turns, positions);
        settled
    }

    /// The search, which leaves the line where it ends.
    fn search(&mut self, state: State<S>, last: Step, steps: &mut Steps) -> Result<u32, Stop>
        ensures work { work steps.new ≤ work steps.old }
    {
        self.expand(state, last, Thresholds::none(), steps)?;
        'rounds: loop {
            steps.begin_round()?;
            if let Some(number) = self.round(steps)? {
                return Ok(number);
            }
        }
    }

    /// The children of the frame, which is the last.
    pub(crate) fn children_of(&self, frame: Frame<S>) -> &[Child] {
        part_from(self.children.as_slice(), frame.first)
    }

    /// Settles the last frame, leaves it, or goes down from it. Returns the proof of the first state if that is settled.
    fn round(&mut self, steps: &mut Steps) -> Result<Option<u32>, Stop>
        ensures work { work steps.new ≤ work steps.old }
    {
        let Some(frame) = self.frames.last().copied() else {
            return Err(Stop::Refused(Refusal::Fault));
        };
        match standing_of(self.children_of(frame)) {
            Standing::Wins => self.settle_last(frame, Form::Turn),
            Standing::Loses => self.settle_last(frame, Form::Replies),
            Standing::Open(count) => {
                let numbers = numbers_of(count);
                if self.frames.len() > 1 && frame.thresholds.are_reached(numbers) {
                    self.leave_open(frame, numbers);
                    return Ok(None);
                }
                self.go_down(frame, count, steps)?;
                Ok(None)
            }
        }
    }

    /// Makes the proof of the last frame, and gives it to the frame above.
    fn settle_last(&mut self, frame: Frame<S>, form: Form) -> Result<Option<u32>, Stop> {
        let mover = frame.state.key.mover;
        let winner = match form {
            Form::Turn => mover,
            _ => mover.opponent(),
        };
        self.learn(frame, winner == mover);
        let number = self.prove(frame, winner, form)?;
        let outcome = outcome_by(mover.opponent(), winner, Reason::Proof(number));
        if self.leave(frame, outcome) {
            Ok(None)
        } else {
            Ok(Some(number))
        }
    }

    /// Notes which turns of the frame have won.
    fn learn(&mut self, frame: Frame<S>, mover_wins: bool) {
        let side = self.side(frame.state.key.mover);
        for place in frame.first..self.children.len() {
            if let Some(child) = self.children.get(place).copied() {
                match child.outcome {
                    Outcome::Open(_) => {}
                    Outcome::Wins(_) => self.results.learn(side, child.step, frame.last, true),
                    Outcome::Loses(_) => {
                        if !mover_wins {
                            self.results.learn(side, child.step, frame.last, false);
                        }
                    }
                }
            }
        }
    }

    /// Removes the last frame, and notes this outcome in the frame above. Returns whether there is one.
    fn leave(&mut self, frame: Frame<S>, outcome: Outcome) -> bool {
        self.frames.pop();
        self.children.truncate(frame.first);
        let Some(above) = self.frames.last().copied() else {
            return false;
        };
        self.back(frame.last);
        self.set_outcome(above.current, outcome);
        true
    }

    /// Leaves the last frame, which is not settled, with these numbers.
    fn leave_open(&mut self, frame: Frame<S>, numbers: MoverNumbers) {
        let key = frame.state.key;
        let is_attacker = key.mover == self.attacker;
        self.stored.mark(key.position);
        // If memory is refused, the table does without.
        let _stored = self.table.store(key, numbers.for_table(is_attacker));
        let _left = self.leave(frame, Outcome::Open(numbers.turned()));
    }

    fn set_outcome(&mut self, place: usize, outcome: Outcome) {
        if place < self.children.len() {
            self.children[place].outcome = outcome;
        }
    }

    /// Goes down to the child with the least weighed number, or settles it if it has been proved in the meantime.
    fn go_down(&mut self, frame: Frame<S>, count: Count, steps: &mut Steps) -> Result<(), Stop>
        ensures work { work steps.new ≤ work steps.old }
    {
        let place = frame.first.saturating_add(count.best);
        let Some(child) = self.children.get(place).copied() else {
            return Err(Stop::Refused(Refusal::Fault));
        };
        if let Some((winner, number)) = self.proved(child.key) {
            let outcome = outcome_by(frame.state.key.mover, winner, Reason::Proof(number));
            self.set_outcome(place, outcome);
            return Ok(());
        }
        let Outcome::Open(numbers) = child.outcome else {
            return Err(Stop::Refused(Refusal::Fault));
        };
        let last = self.frames.len().saturating_sub(1);
        if last < self.frames.len() {
            self.frames[last].current = place;
        }
        let step = child.step;
        let below = self.after(frame.state, step);
        self.go(step, child.key.position)?;
        let thresholds = thresholds_below(frame.thresholds, count, numbers, child.weight);
        self.expand(below, step, thresholds, steps)
    }
}

/// The state of the problem.
fn first_state<S: PlaceSet>(problem: &Problem, position: Position<S>) -> State<S> {
    State {
        position,
        key: Key {
            position: key_of(problem.colouring()),
            mover: problem.mover(),
            passes: if problem.passes() == 0 { 0 } else { 1 },
        },
    }
}
