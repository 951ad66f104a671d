//! The end of the search: a proof is walked along the real line of play, and each state that was settled by a question is expanded.
//!
//! A state takes a proof that was made for it before, if that holds, or a new one. Each new proof has the conditions of the place
//! where it is made. States that live by their shape, or cannot have two eyes, are played out by a fixed rule; if the rule fails,
//! the next turn and a short search take its place.

ghost use Rattle.std.specs.Prelude.{◌≡◌, ◌≤◌, ◌<◌, ◌+◌, false, OnOk};
ghost use Rattle.state_proofs.specs.Work.{work};

use crate::expanding::step_at;
use crate::frame::{State, side_of};
use crate::search::Search;
use go_points::Colour;
use local_board::{PlaceSet, Side, Step};
use state_proofs::{Below, Branch, Form, Proof, Refusal, Settled, Steps, Stop, part_from};
use std::alloc::{AllocError, Global};

/// The greatest number of steps of a search if the rule for playing out has no turn.
const MAX_HELP: u64 = 1_000;

/// What is to be made of a state.
#[derive(Clone, Copy)]
pub(crate) enum Goal {
    /// Nothing: the winner has won.
    Won,
    /// Nothing: this proof holds there.
    Known(u32),
    /// This proof, made along the line.
    Whole(u32),
    /// A proof that the defender lives.
    Life,
    /// A proof that he does not.
    Death,
}

/// A turn that is to be followed, and what is to be made of the state after it.
#[derive(Clone, Copy)]
pub(crate) struct Due {
    pub(crate) step: Step,
    pub(crate) goal: Goal,
}

/// Which of the turns are needed.
#[derive(Clone, Copy, Debug, PartialEq, Eq)]
pub(crate) enum Needed {
    All,
    /// The first that can be made, or a short search if there is none.
    One,
}

/// What became of a state.
#[derive(Clone, Copy)]
pub(crate) enum Entered {
    /// This proof holds there.
    Done(u32),
    /// It is worked on.
    Begun,
    /// It has no such proof by the rules.
    Failed,
}

/// A state of the line whose proof is made.
#[derive(Clone, Copy)]
pub(crate) struct Visit<S> {
    pub(crate) state: State<S>,
    pub(crate) winner: Colour,
    pub(crate) form: Form,
    pub(crate) needed: Needed,
    /// Whether the past may bar a move.
    pub(crate) is_barred: bool,
    /// The place of the next turn among those that are due.
    next: usize,
    /// Where its turns and its new branches begin.
    due: usize,
    made: usize,
}

/// The walk along the line.
#[derive(Drop)]
pub(crate) struct Finish<S> {
    pub(crate) search: Search<S>,
    pub(crate) steps: Steps,
    visits: Vec<Visit<S>>,
    pub(crate) due: Vec<Due>,
    made: Vec<Branch>,
    /// The proofs that short searches made, by their places in the list. They may use what is known only by shape.
    pub(crate) helped: Vec<(usize, usize)>,
}

impl<S: PlaceSet> Finish<S> {
    pub(crate) fn of(alloc: Global, search: Search<S>, left: u64) -> Finish<S> {
        Finish {
            search,
            steps: Steps::of(left, 0),
            visits: Vec::new(alloc),
            due: Vec::new(alloc),
            made: Vec::new(alloc),
            helped: Vec::new(alloc),
        }
    }

    /// Makes what the goal says for the state at the end of the line, and returns the number of its proof. `None` if there is none
    /// by the rules. The line is then as it was.
    pub(crate) fn make(&mut self, state: State<S>, goal: Goal) -> Result<Option<u32>, Stop>
        ensures work { work self.new.steps ≤ work self.old.steps }
    {
        let turns = self.search.turns;
        let positions = self.search.past.len();
        self.visits.clear();
        self.due.clear();
        self.made.clear();
        let made = self.walk(state, goal);
        self.search.back_to(turns, positions);
        made
    }

    /// The walk, which leaves the line where it ends.
    fn walk(&mut self, state: State<S>, goal: Goal) -> Result<Option<u32>, Stop>
        ensures work { work self.new.steps ≤ work self.old.steps }
    {
        let mut entered = self.enter(state, goal)?;
        'rounds: loop {
            self.steps.begin_round()?;
            let is_first = self.visits.is_empty();
            entered = match entered {
                Entered::Done(number) if is_first => return Ok(Some(number)),
                Entered::Failed if is_first => return Ok(None),
                Entered::Done(number) => self.take(number)?,
                Entered::Failed => self.fail(),
                Entered::Begun => self.go_on()?,
            };
        }
    }

    /// Begins with the state at the end of the line.
    fn enter(&mut self, state: State<S>, goal: Goal) -> Result<Entered, Stop>
        ensures work { work self.new.steps ≤ work self.old.steps }
    {
        match goal {
            Goal::Won => Ok(Entered::Failed),
            Goal::Known(number) => Ok(Entered::Done(number)),
            Goal::Whole(number) => self.enter_whole(state, number),
            Goal::Life => self.enter_life(state),
            Goal::Death => self.enter_death(state),
        }
    }

    /// Begins with a proof that was found.
    fn enter_whole(&mut self, state: State<S>, number: u32) -> Result<Entered, Stop>
        ensures work { work self.new.steps ≤ work self.old.steps }
    {
        if let Some(known) = self.search.proof_here(state.key) {
            return Ok(Entered::Done(known));
        }
        let Some(proof) = self.search.proofs.get(number) else {
            return Err(Stop::Refused(Refusal::Fault));
        };
        match proof.form {
            Form::Alive => self.enter_life(state),
            Form::Dead => self.enter_death(state),
            Form::Turn | Form::Replies => self.enter_branches(state, proof),
        }
    }

    /// Begins with the branches of a proof. A state that was settled by a question is expanded now, which is a step. The
    /// walk of another one's proof uses rounds that are paid for.
    fn enter_branches(&mut self, state: State<S>, proof: Proof) -> Result<Entered, Stop>
        ensures step { OnOk result (proof.is_expanded ≡ false
            → self.new.steps.left + 1 ≡ self.old.steps.left) }
        ensures work { work self.new.steps ≤ work self.old.steps }
        ensures less { OnOk result (work self.new.steps < work self.old.steps) }
    {
        if proof.is_expanded {
            self.steps.begin_walk()?;
        } else {
            self.steps.take()?;
        }
        let due = self.due.len();
        self.list_branches(state, proof)?;
        // The past bars a move, or a single stone would take itself off.
        let listed = self.due.len().saturating_sub(due);
        let is_barred = listed <= self.playable(state).len() as usize;
        self.begin(state, proof.winner, proof.form, Needed::All, due, is_barred)
    }

    /// Lists those branches of the proof that are legal here as due.
    fn list_branches(&mut self, state: State<S>, proof: Proof) -> Result<(), Stop>
        ensures steps { self.new.steps ≡ self.old.steps }
    {
        for place in 0..self.search.proofs.branches(proof).len() {
            if let Some(branch) = self.search.proofs.branch(proof, place) {
                self.list_branch(state, branch)?;
            }
        }
        Ok(())
    }

    /// Lists the branch as due, if it is legal here.
    fn list_branch(&mut self, state: State<S>, branch: Branch) -> Result<(), Stop>
        ensures steps { self.new.steps ≡ self.old.steps }
    {
        let turn = branch.turn;
        let Some(step) = self.search.shapes.board.step(turn) else {
            return Err(Stop::Refused(Refusal::Fault));
        };
        if step != Step::Pass {
            let after = self.search.after(state, step);
            if self.search.past.has(after.key.position) {
                return Ok(());
            }
        }
        let goal = match branch.below() {
            Below::Won => Goal::Won,
            Below::Proof(number) => Goal::Whole(number),
        };
        self.due.push(Due { step, goal })?;
        Ok(())
    }

    /// Begins the visit of the state, whose turns are due from this place on.
    pub(crate) fn begin(
        &mut self,
        state: State<S>,
        winner: Colour,
        form: Form,
        needed: Needed,
        due: usize,
        is_barred: bool,
    ) -> Result<Entered, Stop>
        ensures steps { self.new.steps ≡ self.old.steps }
    {
        self.visits.push(Visit {
            state,
            winner,
            form,
            needed,
            is_barred,
            next: due,
            due,
            made: self.made.len(),
        })?;
        Ok(Entered::Begun)
    }

    /// Follows the next turn of the last state, or makes its proof.
    fn go_on(&mut self) -> Result<Entered, Stop>
        ensures work { work self.new.steps ≤ work self.old.steps }
    {
        let Some(visit) = self.visits.last().copied() else {
            return Err(Stop::Refused(Refusal::Fault));
        };
        match self.due.get(visit.next).copied() {
            Some(due) => self.follow(visit, due),
            None if visit.needed == Needed::One && self.made.len() == visit.made => {
                self.ask_for_help(visit)
            }
            None => self.leave(visit),
        }
    }

    /// Follows a turn of the last state.
    fn follow(&mut self, visit: Visit<S>, due: Due) -> Result<Entered, Stop>
        ensures work { work self.new.steps ≤ work self.old.steps }
    {
        let step = due.step;
        let goal = due.goal;
        match goal {
            Goal::Won => {
                self.keep(step, Below::Won)?;
                Ok(Entered::Begun)
            }
            Goal::Known(number) => {
                self.keep(step, Below::Proof(number))?;
                Ok(Entered::Begun)
            }
            _ => {
                let after = self.search.after(visit.state, step);
                self.search.go(step, after.key.position)?;
                self.enter(after, goal)
            }
        }
    }

    /// Keeps the branch of the last state, and goes on to its next turn if one more is needed.
    fn keep(&mut self, step: Step, below: Below) -> Result<(), AllocError>
        ensures steps { self.new.steps ≡ self.old.steps }
    {
        let turn = self.search.shapes.board.turn(step);
        self.made.push(Branch::of(turn, below))?;
        let end = self.due.len();
        let last = self.visits.len().saturating_sub(1);
        if last < self.visits.len() {
            let next = self.visits[last].next.saturating_add(1);
            let is_all = self.visits[last].needed == Needed::All;
            self.visits[last].next = if is_all { next } else { end };
        }
        Ok(())
    }

    /// The turn of the last state that was followed.
    fn followed(&self) -> Option<Step> {
        let visit = self.visits.last().copied()?;
        let due = self.due.get(visit.next).copied()?;
        Some(due.step)
    }

    /// Takes the proof of the state after the turn that was followed.
    fn take(&mut self, number: u32) -> Result<Entered, Stop>
        ensures steps { self.new.steps ≡ self.old.steps }
    {
        let Some(step) = self.followed() else {
            return Err(Stop::Refused(Refusal::Fault));
        };
        self.search.back(step);
        self.keep(step, Below::Proof(number))?;
        Ok(Entered::Begun)
    }

    /// Goes on when the state after the turn that was followed has no proof by the rules.
    fn fail(&mut self) -> Entered
        ensures steps { self.new.steps ≡ self.old.steps }
    {
        let Some(step) = self.followed() else {
            return Entered::Failed;
        };
        self.search.back(step);
        let last = self.visits.len().saturating_sub(1);
        if last < self.visits.len() && self.visits[last].needed == Needed::One {
            self.visits[last].next = self.visits[last].next.saturating_add(1);
            return Entered::Begun;
        }
        self.drop_last();
        Entered::Failed
    }

    /// Removes the last state.
    fn drop_last(&mut self)
        ensures steps { self.new.steps ≡ self.old.steps }
    {
        if let Some(visit) = self.visits.pop() {
            self.due.truncate(visit.due);
            self.made.truncate(visit.made);
        }
    }

    /// Makes the proof of the last state by the branches that were kept.
    fn leave(&mut self, visit: Visit<S>) -> Result<Entered, Stop>
        ensures steps { self.new.steps ≡ self.old.steps }
    {
        self.list_barred(&visit)?;
        let reached = self.reached_by(visit);
        let number = self.add(visit, reached)?;
        self.drop_last();
        Ok(Entered::Done(number))
    }

    /// Lists the positions after moves at the state that the past bars, if a proof of replies needs them.
    fn list_barred(&mut self, visit: &Visit<S>) -> Result<(), AllocError>
        ensures steps { self.new.steps ≡ self.old.steps }
    {
        self.search.barred.clear();
        if visit.form == Form::Replies && visit.is_barred {
            return self.search.list_barred(visit.state);
        }
        Ok(())
    }

    /// The position after the winner's move.
    fn reached_by(&self, visit: Visit<S>) -> Option<u64> {
        if visit.form != Form::Turn {
            return None;
        }
        let branch = self.made.get(visit.made).copied()?;
        let turn = branch.turn;
        match self.search.shapes.board.step(turn) {
            Some(Step::At(place)) => {
                let after = self.search.after(visit.state, step_at(place as usize));
                Some(after.key.position)
            }
            _ => None,
        }
    }

    fn add(&mut self, visit: Visit<S>, reached: Option<u64>) -> Result<u32, AllocError>
        ensures steps { self.new.steps ≡ self.old.steps }
    {
        let settled = Settled::expanded(visit.state.key, visit.winner, visit.form);
        let made = part_from(self.made.as_slice(), visit.made);
        let barred = self.search.barred.as_slice();
        self.search.proofs.add(settled, made, reached, barred)
    }

    /// Searches the last state for a few steps, when the rule has no turn, and makes the attacker's proof that is found.
    fn ask_for_help(&mut self, visit: Visit<S>) -> Result<Entered, Stop>
        ensures work { work self.new.steps ≤ work self.old.steps }
    {
        self.drop_last();
        let first = self.search.proofs.len();
        let floor = self.steps.begin(MAX_HELP);
        let found = self.search.settle(visit.state, Step::Pass, &mut self.steps);
        self.steps.end(floor);
        self.search.proofs.hide_from(first)?;
        self.helped.push((first, self.search.proofs.len()))?;
        match found {
            Ok(number) => {
                if self.is_attackers(number) {
                    self.enter(visit.state, Goal::Whole(number))
                } else {
                    Ok(Entered::Failed)
                }
            }
            Err(Stop::Steps) if !self.steps.are_made() => Ok(Entered::Failed),
            Err(Stop::Refused(Refusal::Limit)) => Ok(Entered::Failed),
            Err(stop) => Err(stop),
        }
    }

    /// Whether the attacker wins by the proof.
    pub(crate) fn is_attackers(&self, number: u32) -> bool {
        match self.search.proofs.get(number) {
            Some(proof) => side_of(self.search.attacker, proof.winner) == Side::Attacker,
            None => false,
        }
    }
}
