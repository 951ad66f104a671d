//! Smaller proofs in place of larger ones. In each round a proof is walked along the line of play: these are the states of the
//! line, and what has been taken for their turns.

use crate::past::Past;
use crate::proof::{Below, Branch, Form, Proof};
use crate::proofs::{Proofs, part_from};
use go_points::Turn;
use indexmap::IndexMap;
use std::alloc::{AllocError, Global};

/// A proof of at most this many turns is left as it is.
const FEW_TURNS: u64 = 2;

/// In a proof of more turns than this, the winner's other turns are searched, each with at most this many steps.
pub const MAX_TRIED: u64 = 20;

/// A state of the line whose proof is being made smaller.
#[derive(Clone, Copy)]
pub struct Visit {
    /// The proof that is walked, and its number.
    pub proof: Proof,
    number: u32,
    /// The places of the first question about its turns, and of the next one.
    pub first: usize,
    pub next: usize,
    /// Where its new branches begin.
    made: usize,
    /// If the mover wins, the best turn that gives a smaller tree than the proof's own, with the position after it and the turns of
    /// its tree.
    best: Option<(Branch, u64)>,
    least: u64,
}

/// The states of the line, the last one at its end.
#[derive(Drop)]
pub struct Visits {
    visits: Vec<Visit>,
    made: Vec<Branch>,
    /// What each proof of the round has become.
    better: IndexMap<u32, u32>,
}

impl Visits {
    pub fn new(alloc: Global) -> Visits {
        Visits {
            visits: Vec::new(alloc),
            made: Vec::new(alloc),
            better: IndexMap::new(alloc),
        }
    }

    /// Begins a round.
    pub fn clear(&mut self) {
        self.visits.clear();
        self.made.clear();
        self.better.clear();
    }

    pub fn is_empty(&self) -> bool {
        self.visits.is_empty()
    }

    pub fn last(&self) -> Option<Visit> {
        self.visits.last().copied()
    }

    /// The proof that stands for this one without a visit, at a state with this past: itself if no turn of it can be made smaller,
    /// or what it became in the round, if that holds there.
    pub fn known(&self, proofs: &Proofs, past: &Past, number: u32) -> Option<u32> {
        let proof = proofs.get(number)?;
        let is_by_shape = proof.form == Form::Alive || proof.form == Form::Dead;
        if is_by_shape || proof.turns <= FEW_TURNS {
            return Some(number);
        }
        let better = self.better.get(&number).copied()?;
        if proofs.holds_at(better, past) {
            Some(better)
        } else {
            None
        }
    }

    /// Adds the state at the end of the line, the questions about whose turns begin at the place `first`.
    pub fn enter(&mut self, number: u32, proof: Proof, first: usize) -> Result<(), AllocError> {
        let least = proof.turns;
        self.visits.push(Visit {
            proof,
            number,
            first,
            next: first,
            made: self.made.len(),
            best: None,
            least,
        })?;
        Ok(())
    }

    /// Whether the winner of the last state wins by this proof.
    pub fn wins_by(&self, proofs: &Proofs, number: u32) -> bool {
        let Some(visit) = self.last() else {
            return false;
        };
        match proofs.get(number) {
            Some(proof) => proof.winner == visit.proof.winner,
            None => false,
        }
    }

    /// This proof of the state after the turn that the question is about, or the other one if that is smaller and has its winner.
    pub fn smaller(&self, proofs: &Proofs, number: u32, other: Option<u32>) -> u32 {
        match other {
            Some(other)
                if self.wins_by(proofs, other)
                    && proofs.turns_of(other) < proofs.turns_of(number) => other,
            _ => number,
        }
    }

    /// Takes this for the turn that the question is about, which leads to this position, and goes on to the next question.
    pub fn take(
        &mut self,
        proofs: &Proofs,
        turn: Turn,
        below: Below,
        position: u64,
    ) -> Result<(), AllocError> {
        let branch = Branch::of(turn, below);
        if self.has_turn() {
            let turns = proofs.turns_below(below).saturating_add(1);
            self.prefer(branch, turns, position);
        } else {
            self.made.push(branch)?;
        }
        self.pass_on();
        Ok(())
    }

    /// Whether the last state has the winner's turn, rather than replies.
    fn has_turn(&self) -> bool {
        match self.visits.last() {
            Some(visit) => visit.proof.form == Form::Turn,
            None => false,
        }
    }

    /// Prefers the winner's turn, if it gives a tree of fewer turns than those before.
    fn prefer(&mut self, branch: Branch, turns: u64, position: u64) {
        let last = self.visits.len().saturating_sub(1);
        if last < self.visits.len() && turns < self.visits[last].least {
            self.visits[last].least = turns;
            self.visits[last].best = Some((branch, position));
        }
    }

    /// Goes on to the next question of the last state.
    pub fn pass_on(&mut self) {
        let last = self.visits.len().saturating_sub(1);
        if last < self.visits.len() {
            self.visits[last].next = self.visits[last].next.saturating_add(1);
        }
    }

    /// Whether other proofs are below the replies of the last state than before. Then its new proof leaves out what is barred there.
    pub fn has_new_replies(&self, proofs: &Proofs) -> bool {
        let Some(visit) = self.last() else {
            return false;
        };
        let made = part_from(self.made.as_slice(), visit.made);
        visit.proof.form != Form::Turn && !proofs.has_same_below(visit.proof, made)
    }

    /// Removes the last state, all of whose questions are answered, and returns its proof. If it has new replies, these are the
    /// positions that are barred there.
    pub fn leave(&mut self, proofs: &mut Proofs, barred: &[u64]) -> Result<u32, AllocError> {
        let is_new = self.has_new_replies(proofs);
        let Some(visit) = self.visits.pop() else {
            return Err(AllocError);
        };
        let before = visit.number;
        let first = visit.made;
        let settled = visit.proof.settled();
        let number = match visit.best {
            Some((branch, position)) => {
                let is_move = branch.turn != Turn::Pass;
                let reached = if is_move { Some(position) } else { None };
                proofs.add(settled, &[branch], reached, &[])?
            }
            None if is_new => {
                let made = part_from(self.made.as_slice(), first);
                proofs.add(settled, made, None, barred)?
            }
            None => before,
        };
        self.better.insert(before, number)?;
        self.better.insert(number, number)?;
        self.made.truncate(first);
        Ok(number)
    }
}
