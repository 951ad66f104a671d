//! The questions about the turns at a state of the line whose proof is being made smaller.

ghost use Rattle.std.specs.Prelude.{◌≡◌};

use crate::expanding::step_at;
use crate::finish::Finish;
use crate::frame::{State, place_added, side_of};
use crate::smaller::Smaller;
use local_board::{PlaceSet, Room, Side, Step};
use state_proofs::{Below, Branch, Proof};
use std::alloc::AllocError;

/// A question about a turn.
#[derive(Clone, Copy, Debug, PartialEq, Eq)]
pub(crate) enum Question {
    /// Nothing: this is below it.
    Known(Below),
    /// Whether this proof of the state after it can be made smaller.
    Smaller(u32),
    /// Whether the winner wins by it, and how small the proof is.
    Wins,
    /// How small the proof is if the defender, who lives after it, is played out.
    Lives,
}

/// A turn at a state of the line, and the state after it.
#[derive(Clone, Copy)]
pub(crate) struct Asked<S> {
    pub(crate) step: Step,
    pub(crate) after: State<S>,
    pub(crate) question: Question,
}

/// How many of the turns after which the defender lives are played out.
const MAX_LIVING: usize = 8;

/// The places of the best living turns, the best first.
#[derive(Clone, Copy)]
struct LivingTurns {
    places: [usize; MAX_LIVING],
    rooms: [Room; MAX_LIVING],
    count: usize,
}

impl LivingTurns {
    fn none() -> LivingTurns {
        LivingTurns {
            places: [0; MAX_LIVING],
            rooms: [Room::most(); MAX_LIVING],
            count: 0,
        }
    }

    /// Adds a turn, if it is one of the best.
    fn add(&mut self, place: usize, room: Room) {
        let mut new_place = place;
        let mut new_room = room;
        for index in 0..MAX_LIVING {
            if new_room < self.rooms[index] {
                let place = self.places[index];
                let room = self.rooms[index];
                self.places[index] = new_place;
                self.rooms[index] = new_room;
                new_place = place;
                new_room = room;
            }
        }
        self.count = self.count.saturating_add(1).min(MAX_LIVING);
    }
}

impl<S: PlaceSet> Smaller<S> {
    /// Lists the turns of the winner, who is to move, that may be better. If a turn ends the game, it is the only one. Otherwise
    /// the proof's own turn comes first, then those after which the defender lives, then the others.
    pub(crate) fn list_turns(
        &mut self,
        finish: &mut Finish<S>,
        state: State<S>,
        proof: Proof,
    ) -> Result<(), AllocError>
        ensures steps { finish.new.steps ≡ finish.old.steps }
    {
        if let Some((step, after)) = ending_turn(finish, state) {
            return self.ask(step, after, Question::Known(Below::Won));
        }
        let own = finish.search.proofs.branch(proof, 0);
        let Some(own) = own else {
            return Ok(());
        };
        let own_step = finish.search.shapes.board.step(own.turn);
        if let Some(step) = own_step {
            let after = finish.search.after(state, step);
            self.ask(step, after, question_below(own))?;
        }
        let living = self.list_living(finish, state, own_step)?;
        self.list_others(finish, state, own_step, living)
    }

    fn ask(&mut self, step: Step, after: State<S>, question: Question) -> Result<(), AllocError> {
        self.asked.push(Asked {
            step,
            after,
            question,
        })?;
        Ok(())
    }

    /// Lists the best turns after which the defender, who is the winner, lives by his shape, and returns the places of all of them.
    fn list_living(
        &mut self,
        finish: &mut Finish<S>,
        state: State<S>,
        own: Option<Step>,
    ) -> Result<S, AllocError>
        ensures steps { finish.new.steps ≡ finish.old.steps }
    {
        if side_of(finish.search.attacker, state.key.mover) == Side::Attacker {
            return Ok(S::empty());
        }
        let mut best = LivingTurns::none();
        let found = find_living(finish, state, own, &mut best);
        for index in 0..MAX_LIVING {
            if index < best.count {
                let place = best.places[index];
                let after = finish.search.after_move_at(state, Side::Defender, place);
                self.ask(step_at(place), after, Question::Lives)?;
            }
        }
        Ok(found)
    }

    /// Lists the winner's other turns.
    fn list_others(
        &mut self,
        finish: &Finish<S>,
        state: State<S>,
        own: Option<Step>,
        living: S,
    ) -> Result<(), AllocError> {
        let side = side_of(finish.search.attacker, state.key.mover);
        for place in finish.playable(state).minus(living).places() {
            let after = finish.search.after_move_at(state, side, place);
            let is_legal = after.position != state.position
                && !finish.search.past.has(after.key.position);
            let is_over = finish.search.shapes.board.is_taken(after.position);
            if is_legal && !is_over && own != Some(step_at(place)) {
                self.ask(step_at(place), after, Question::Wins)?;
            }
        }
        if own != Some(Step::Pass) && state.key.passes == 0 {
            let after = finish.search.after(state, Step::Pass);
            return self.ask(Step::Pass, after, Question::Wins);
        }
        Ok(())
    }

    /// Lists the replies of the proof that are legal here.
    pub(crate) fn list_replies(
        &mut self,
        finish: &Finish<S>,
        state: State<S>,
        proof: Proof,
    ) -> Result<(), AllocError> {
        for place in 0..finish.search.proofs.branches(proof).len() {
            if let Some(branch) = finish.search.proofs.branch(proof, place) {
                self.list_reply(finish, state, branch)?;
            }
        }
        Ok(())
    }

    fn list_reply(
        &mut self,
        finish: &Finish<S>,
        state: State<S>,
        branch: Branch,
    ) -> Result<(), AllocError> {
        let turn = branch.turn;
        let Some(step) = finish.search.shapes.board.step(turn) else {
            return Ok(());
        };
        let after = finish.search.after(state, step);
        if step != Step::Pass && finish.search.past.has(after.key.position) {
            return Ok(());
        }
        self.ask(step, after, question_below(branch))
    }
}

/// The question about a turn that the proof has.
fn question_below(branch: Branch) -> Question {
    match branch.below() {
        Below::Won => Question::Known(Below::Won),
        Below::Proof(number) => Question::Smaller(number),
    }
}

/// The turn by which the winner, who is to move, ends the game at once.
fn ending_turn<S: PlaceSet>(finish: &Finish<S>, state: State<S>) -> Option<(Step, State<S>)> {
    if side_of(finish.search.attacker, state.key.mover) == Side::Defender {
        if state.key.passes == 0 {
            return None;
        }
        return Some((Step::Pass, finish.search.after(state, Step::Pass)));
    }
    let after = finish.search.taking_turn(state)?;
    let place = place_added(&state, &after)?;
    Some((step_at(place), after))
}

/// The places where the defender's move leaves him alive by his shape, except his own turn. The best of them are noted.
fn find_living<S: PlaceSet>(
    finish: &mut Finish<S>,
    state: State<S>,
    own: Option<Step>,
    best: &mut LivingTurns,
) -> S
    ensures steps { finish.new.steps ≡ finish.old.steps }
{
    let mut found = S::empty();
    for place in finish.playable(state).places() {
        if own != Some(step_at(place)) && lives_after(finish, state, place) {
            let after = finish.search.after_move_at(state, Side::Defender, place);
            let room = finish.search.shapes.room_of_life(after.position);
            best.add(place, room);
            found = found.with(place);
        }
    }
    found
}

/// Whether the defender's move at this place is legal and leaves him alive by his shape.
fn lives_after<S: PlaceSet>(finish: &mut Finish<S>, state: State<S>, place: usize) -> bool
    ensures steps { finish.new.steps ≡ finish.old.steps }
{
    let after = finish.search.after_move_at(state, Side::Defender, place);
    after.position != state.position
        && !finish.search.past.has(after.key.position)
        && finish.search.shapes.is_alive(after.position)
}
