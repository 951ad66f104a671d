//! The proof of a state that is settled, from its children.

use crate::expanding::step_at;
use crate::frame::{Child, Frame, Outcome, Reason, State, place_added};
use crate::search::Search;
use go_points::{Colour, Turn};
use local_board::{PlaceSet, Side, Step};
use state_proofs::{Below, Branch, Form, Proofs, Refusal, Settled};
use std::alloc::AllocError;

/// A proof by shape counts for three turns, doubled for each empty point of the region, but doubled at most this many times.
const MOST_DOUBLINGS: u32 = 14;

/// The depth that a proof by shape counts for.
const DEPTH_BY_SHAPE: u16 = 30;

impl<S: PlaceSet> Search<S> {
    /// Makes the proof of the last frame.
    pub(crate) fn prove(
        &mut self,
        frame: Frame<S>,
        winner: Colour,
        form: Form,
    ) -> Result<u32, Refusal> {
        self.branches.clear();
        self.barred.clear();
        let mut reached = None;
        if form == Form::Turn {
            let children = self.children_of(frame);
            if let Some(child) = winning_child(children, &self.proofs, self.has_leaves) {
                if child.step != Step::Pass {
                    reached = Some(child.key.position);
                }
                self.add_branch(frame.state, child)?;
            }
        } else {
            for place in frame.first..self.children.len() {
                if let Some(child) = self.children.get(place).copied() {
                    self.add_branch(frame.state, child)?;
                }
            }
            if frame.is_barred {
                self.list_barred(frame.state)?;
            }
        }
        let settled = Settled::expanded(frame.state.key, winner, form);
        let branches = self.branches.as_slice();
        let barred = self.barred.as_slice();
        Ok(self.proofs.add(settled, branches, reached, barred)?)
    }

    /// Adds the branch to a settled child of the state.
    fn add_branch(&mut self, state: State<S>, child: Child) -> Result<(), Refusal> {
        let step = child.step;
        let reason = match child.outcome {
            Outcome::Open(_) => return Ok(()),
            Outcome::Wins(reason) | Outcome::Loses(reason) => reason,
        };
        let below = match reason {
            Reason::Over => Below::Won,
            Reason::Proof(number) => Below::Proof(number),
            _ => {
                let after = self.after(state, step);
                Below::Proof(self.proof_by_question(reason, after)?)
            }
        };
        let turn = self.shapes.board.turn(step);
        self.branches.push(Branch::of(turn, below))?;
        Ok(())
    }

    /// Lists the positions after the state's moves that the past bars.
    pub(crate) fn list_barred(&mut self, state: State<S>) -> Result<(), AllocError> {
        let side = self.side(state.key.mover);
        let empty = self.shapes.board.empty(state.position);
        for place in empty.and(self.shapes.board.region()).places() {
            let after = self.after_move_at(state, side, place);
            let position = after.key.position;
            if position != state.key.position && self.past.has(position) {
                self.barred.push(position)?;
            }
        }
        Ok(())
    }

    /// The proof of a state one turn after the end of the line that a question has settled. Its state has not been expanded.
    pub(crate) fn proof_by_question(
        &mut self,
        reason: Reason,
        state: State<S>,
    ) -> Result<u32, Refusal> {
        if let Some(number) = self.proof_after(state.key) {
            return Ok(number);
        }
        match reason {
            Reason::Passes => Ok(self.proof_by_pass(state, false)?),
            Reason::Takes => self.proof_by_taking(state, false),
            Reason::Next => self.proof_by_next_turn(state),
            Reason::Dead => Ok(self.proof_by_shape(state, Side::Attacker)?),
            _ => Ok(self.proof_by_shape(state, Side::Defender)?),
        }
    }

    /// The proof of a state where the defender passes for the second time.
    pub(crate) fn proof_by_pass(
        &mut self,
        state: State<S>,
        is_expanded: bool,
    ) -> Result<u32, AllocError> {
        let branch = Branch::of(Turn::Pass, Below::Won);
        let settled = Settled {
            key: state.key,
            winner: self.colour(Side::Defender),
            form: Form::Turn,
            is_expanded,
        };
        self.proofs.add(settled, &[branch], None, &[])
    }

    /// The proof of a state where the attacker takes a target at once.
    pub(crate) fn proof_by_taking(
        &mut self,
        state: State<S>,
        is_expanded: bool,
    ) -> Result<u32, Refusal> {
        let settled = Settled {
            key: state.key,
            winner: self.attacker,
            form: Form::Turn,
            is_expanded,
        };
        let Some(after) = self.taking_turn(state) else {
            return Err(Refusal::Fault);
        };
        let step = match place_added(&state, &after) {
            Some(place) => step_at(place),
            None => Step::Pass,
        };
        let branch = Branch::of(self.shapes.board.turn(step), Below::Won);
        let after = Some(after.key.position);
        Ok(self.proofs.add(settled, &[branch], after, &[])?)
    }

    /// The proof of a state whose mover has a turn after which it is certain.
    fn proof_by_next_turn(&mut self, state: State<S>) -> Result<u32, Refusal> {
        let side = self.side(state.key.mover);
        let Some(next) = self.best_next_turn(state, side) else {
            return Err(Refusal::Fault);
        };
        let number = match self.proof_after(next.state.key) {
            Some(number) => number,
            None => self.proof_by_shape(next.state, side)?,
        };
        let turn = self.shapes.board.turn(next.step);
        let branch = Branch::of(turn, Below::Proof(number));
        let settled = Settled {
            key: state.key,
            winner: state.key.mover,
            form: Form::Turn,
            is_expanded: false,
        };
        let after = Some(next.state.key.position);
        Ok(self.proofs.add(settled, &[branch], after, &[])?)
    }

    /// The proof of a state that the side has won by shape. It is a leaf if the defender has won and living states are leaves;
    /// otherwise it still has to be played out.
    pub(crate) fn proof_by_shape(
        &mut self,
        state: State<S>,
        winner: Side,
    ) -> Result<u32, AllocError> {
        let empty = self.shapes.board.empty(state.position);
        let playable = empty.and(self.shapes.board.region()).len();
        let form = match winner {
            Side::Attacker => Form::Dead,
            Side::Defender => Form::Alive,
        };
        let settled = Settled {
            key: state.key,
            winner: self.colour(winner),
            form,
            is_expanded: false,
        };
        if self.has_leaves && form == Form::Alive {
            return self.proofs.add_leaf(settled);
        }
        let turns = 3u64 << playable.min(MOST_DOUBLINGS);
        self.proofs.add_by_shape(settled, turns, DEPTH_BY_SHAPE)
    }
}

/// How good a winning child is: an end of the game by pass is best, then any end, then a leaf, then the fewest turns.
fn cost(child: Child, reason: Reason, proofs: &Proofs, has_leaves: bool) -> u64 {
    match reason {
        Reason::Over if child.step == Step::Pass => 0,
        Reason::Over => 1,
        Reason::Alive if has_leaves => 2,
        Reason::Passes | Reason::Takes => 3,
        Reason::Proof(number) => proofs.turns_of(number).saturating_add(2),
        _ => 1_000,
    }
}

/// The best of the children by which the mover wins.
fn winning_child(children: &[Child], proofs: &Proofs, has_leaves: bool) -> Option<Child> {
    let mut best = None;
    let mut least = u64::MAX;
    for child in children {
        if let Outcome::Wins(reason) = child.outcome {
            let cost = cost(*child, reason, proofs, has_leaves);
            if best.is_none() || cost < least {
                best = Some(*child);
                least = cost;
            }
        }
    }
    best
}
