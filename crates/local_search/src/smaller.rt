//! A smaller answer, found with the steps that are left after a proof is found.
//!
//! Each round walks the proof along the real line of play, and puts smaller proofs in place of larger ones: for a state, one that
//! was made elsewhere and holds here; for the winner's turn, another turn that a short search shows to win as well, or one after
//! which the defender lives and which is played out.

ghost use Rattle.std.specs.Prelude.{◌≡◌, ◌≤◌, ◌<◌, ◌+◌, OnOk};
ghost use Rattle.state_proofs.specs.Work.{work};

use crate::asked::{Asked, Question};
use crate::finish::{Finish, Goal};
use crate::frame::State;
use local_board::PlaceSet;
use state_proofs::{Below, Form, MAX_TRIED, Proof, Refusal, Stop, Visit, Visits};
use std::alloc::{AllocError, Global};

/// The greatest number of steps for playing out a turn after which the defender lives.
const MAX_PLAYED: u64 = 1_000;

/// The rounds over a proof.
#[derive(Drop)]
pub(crate) struct Smaller<S> {
    visits: Visits,
    /// The states that are visited.
    states: Vec<State<S>>,
    pub(crate) asked: Vec<Asked<S>>,
}

impl<S: PlaceSet> Smaller<S> {
    pub(crate) fn of(alloc: Global) -> Smaller<S> {
        Smaller {
            visits: Visits::new(alloc),
            states: Vec::new(alloc),
            asked: Vec::new(alloc),
        }
    }

    /// A smaller proof of the first state than this one. It makes rounds until one gains less than a hundredth or no step is left.
    /// If memory is refused, the last proof stays.
    pub(crate) fn shrink(&mut self, finish: &mut Finish<S>, start: State<S>, root: u32) -> u32
        ensures work { work finish.new.steps ≤ work finish.old.steps }
    {
        let mut root = root;
        'rounds: while finish.steps.begin_round().is_ok() {
            let before = finish.search.proofs.turns_of(root);
            let turns = finish.search.turns;
            let positions = finish.search.past.len();
            let found = self.round(finish, start, root);
            finish.search.back_to(turns, positions);
            let Ok(next) = found else {
                return root;
            };
            let after = finish.search.proofs.turns_of(next);
            if after <= before {
                root = next;
            }
            if finish.steps.are_made() || after >= before - before / 100 {
                return root;
            }
        }
        root
    }

    /// One round from the first state. Returns its proof after the round.
    fn round(&mut self, finish: &mut Finish<S>, start: State<S>, root: u32) -> Result<u32, Stop>
        ensures work { work finish.new.steps ≤ work finish.old.steps }
    {
        self.visits.clear();
        self.states.clear();
        self.asked.clear();
        let mut done = self.enter(finish, start, root)?;
        'rounds: loop {
            finish.steps.begin_round()?;
            if let Some(number) = done {
                if self.visits.is_empty() {
                    return Ok(number);
                }
                self.take_smallest(finish, number)?;
            }
            done = self.go_on(finish)?;
        }
    }

    /// Asks the next question of the last state, or makes its proof. Returns the proof of the state at the end of the line once
    /// there is one.
    fn go_on(&mut self, finish: &mut Finish<S>) -> Result<Option<u32>, Stop>
        ensures work { work finish.new.steps ≤ work finish.old.steps }
    {
        let Some(visit) = self.visits.last() else {
            return Err(Stop::Refused(Refusal::Fault));
        };
        let Some(asked) = self.asked.get(visit.next).copied() else {
            return Ok(Some(self.leave(finish, visit)?));
        };
        match asked.question {
            Question::Known(below) => {
                self.take(finish, asked, below)?;
                Ok(None)
            }
            Question::Smaller(number) => {
                finish.search.go(asked.step, asked.after.key.position)?;
                self.enter(finish, asked.after, number)
            }
            Question::Wins | Question::Lives => {
                self.ask_another(finish, visit.proof.turns, asked)?;
                Ok(None)
            }
        }
    }

    /// Begins with the proof of the state at the end of the line, or returns the proof that can replace it at once.
    fn enter(
        &mut self,
        finish: &mut Finish<S>,
        state: State<S>,
        number: u32,
    ) -> Result<Option<u32>, Stop>
        ensures work { work finish.new.steps ≤ work finish.old.steps }
    {
        let Some(proof) = finish.search.proofs.get(number) else {
            return Err(Stop::Refused(Refusal::Fault));
        };
        if finish.steps.are_made() {
            return Ok(Some(number));
        }
        let past = &finish.search.past;
        if let Some(known) = self.visits.known(&finish.search.proofs, past, number) {
            return Ok(Some(known));
        }
        self.begin(finish, state, number, proof)?;
        Ok(None)
    }

    /// Begins the visit of a state. It is expanded, which is a step.
    fn begin(
        &mut self,
        finish: &mut Finish<S>,
        state: State<S>,
        number: u32,
        proof: Proof,
    ) -> Result<(), Stop>
        ensures step { OnOk result
            (finish.new.steps.left + 1 ≡ finish.old.steps.left) }
        ensures work { work finish.new.steps ≤ work finish.old.steps }
        ensures less { OnOk result (work finish.new.steps < work finish.old.steps) }
    {
        finish.steps.take()?;
        let first = self.asked.len();
        self.list_questions(finish, state, proof)?;
        self.visits.enter(number, proof, first)?;
        self.states.push(state)?;
        Ok(())
    }

    /// Lists the questions about the turns of a state.
    fn list_questions(
        &mut self,
        finish: &mut Finish<S>,
        state: State<S>,
        proof: Proof,
    ) -> Result<(), AllocError>
        ensures steps { finish.new.steps ≡ finish.old.steps }
    {
        match proof.form {
            Form::Turn => self.list_turns(finish, state, proof),
            _ => self.list_replies(finish, state, proof),
        }
    }

    /// Asks whether the winner wins by another turn than the proof's own, which has this many turns.
    fn ask_another(
        &mut self,
        finish: &mut Finish<S>,
        turns: u64,
        asked: Asked<S>,
    ) -> Result<(), Stop>
        ensures work { work finish.new.steps ≤ work finish.old.steps }
    {
        if let Some(number) = self.found_after(finish, turns, asked)? {
            if self.visits.wins_by(&finish.search.proofs, number) {
                return self.take(finish, asked, Below::Proof(number));
            }
        }
        self.visits.pass_on();
        Ok(())
    }

    /// A proof of the state after the turn: one that is known, or, in a proof of many turns, one that some steps find.
    fn found_after(
        &mut self,
        finish: &mut Finish<S>,
        turns: u64,
        asked: Asked<S>,
    ) -> Result<Option<u32>, Stop>
        ensures work { work finish.new.steps ≤ work finish.old.steps }
    {
        if let Some(found) = finish.search.proof_after(asked.after.key) {
            return Ok(Some(found));
        }
        if turns <= MAX_TRIED || finish.steps.are_made() {
            return Ok(None);
        }
        let step = asked.step;
        finish.search.go(step, asked.after.key.position)?;
        let found = try_turn(finish, turns, asked);
        finish.search.back(step);
        match found {
            Err(Stop::Steps) | Err(Stop::Refused(Refusal::Limit)) => Ok(None),
            _ => found,
        }
    }

    /// Takes the proof of the state after the turn that the question was about, or a smaller one that was made elsewhere.
    fn take_smallest(&mut self, finish: &mut Finish<S>, number: u32) -> Result<(), Stop>
        ensures steps { finish.new.steps ≡ finish.old.steps }
    {
        let Some(visit) = self.visits.last() else {
            return Err(Stop::Refused(Refusal::Fault));
        };
        let Some(asked) = self.asked.get(visit.next).copied() else {
            return Err(Stop::Refused(Refusal::Fault));
        };
        finish.search.back(asked.step);
        let other = finish.search.proof_after(asked.after.key);
        let smallest = self.visits.smaller(&finish.search.proofs, number, other);
        self.take(finish, asked, Below::Proof(smallest))
    }

    /// Takes this for the turn that the question was about.
    fn take(&mut self, finish: &Finish<S>, asked: Asked<S>, below: Below) -> Result<(), Stop> {
        let turn = finish.search.shapes.board.turn(asked.step);
        let position = asked.after.key.position;
        self.visits
            .take(&finish.search.proofs, turn, below, position)?;
        Ok(())
    }

    /// Removes the last state, all of whose questions are answered, and returns its proof.
    fn leave(&mut self, finish: &mut Finish<S>, visit: Visit) -> Result<u32, Refusal>
        ensures steps { finish.new.steps ≡ finish.old.steps }
    {
        let Some(state) = self.states.pop() else {
            return Err(Refusal::Fault);
        };
        self.asked.truncate(visit.first);
        finish.search.barred.clear();
        if self.visits.has_new_replies(&finish.search.proofs) {
            finish.search.list_barred(state)?;
        }
        let barred = finish.search.barred.as_slice();
        Ok(self.visits.leave(&mut finish.search.proofs, barred)?)
    }
}

/// Searches the state at the end of the line for a few steps, or plays it out if the defender lives there.
fn try_turn<S: PlaceSet>(
    finish: &mut Finish<S>,
    turns: u64,
    asked: Asked<S>,
) -> Result<Option<u32>, Stop>
    ensures work { work finish.new.steps ≤ work finish.old.steps }
{
    if asked.question == Question::Lives {
        let floor = finish.steps.begin(turns.min(MAX_PLAYED));
        let made = finish.make(asked.after, Goal::Life);
        finish.steps.end(floor);
        return made;
    }
    let floor = finish.steps.begin(turns.min(MAX_TRIED));
    let found = finish
        .search
        .settle(asked.after, asked.step, &mut finish.steps);
    finish.steps.end(floor);
    Ok(Some(found?))
}
