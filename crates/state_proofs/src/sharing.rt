//! One proof of a state for all its places where that proof holds.
//!
//! A found proof is walked along the real line of play, and each state takes a proof that was made for it before, if that holds, or
//! a new one. Each new proof has the conditions of the place where it is made.

use crate::line::Line;
use crate::play::{Move, list_barred, move_of};
use crate::proof::{Below, Branch, Form, Proof, Settled};
use crate::proofs::{Proofs, part_from};
use crate::refusal::Refusal;
use crate::shared::Shared;
use crate::used::MAX_STATES;
use go_points::Turn;
use std::alloc::{AllocError, Global};

/// The greatest number of rounds for a state: one for each turn, of which there are at most 626 on 25 rows, and one for its proof.
const ROUNDS_OF_STATE: usize = 627;

/// A state of the line whose new proof is made.
#[derive(Clone, Copy)]
struct Visit {
    settled: Settled,
    /// The position after the winner's move.
    reached: Option<u64>,
    /// The place of the next branch among those that are due.
    next: usize,
    /// Where its branches, the branches that are made for it and its barred positions begin.
    due: usize,
    made: usize,
    barred: usize,
}

/// The shared proofs of the state at the end of the line, for which this proof was found.
pub fn share(alloc: Global, line: Line, found: Proofs, root: u32) -> Result<Shared, Refusal> {
    let Some(proof) = found.get(root) else {
        return Err(Refusal::Fault);
    };
    let winner = proof.winner;
    let mut sharing = Sharing::of(alloc, line, found);
    let root = sharing.share(root)?;
    Ok(Shared {
        winner,
        proofs: sharing.into_shared(),
        root,
    })
}

/// The walk along the line.
#[derive(Drop)]
struct Sharing {
    line: Line,
    found: Proofs,
    shared: Proofs,
    visits: Vec<Visit>,
    due: Vec<Branch>,
    made: Vec<Branch>,
    barred: Vec<u64>,
    moves: Vec<Move>,
    /// The greatest number of proofs that are made: no claim is made of more than `MAX_STATES`, nor are more needed for a tree.
    most: usize,
}

impl Sharing {
    /// A walk over what was found, at the start of the problem.
    fn of(alloc: Global, line: Line, found: Proofs) -> Sharing {
        let most = found.len().max(MAX_STATES).saturating_add(1);
        Sharing {
            line,
            found,
            shared: Proofs::new(alloc),
            visits: Vec::new(alloc),
            due: Vec::new(alloc),
            made: Vec::new(alloc),
            barred: Vec::new(alloc),
            moves: Vec::new(alloc),
            most,
        }
    }

    /// Shares the found proof of the state at the end of the line, and returns the number of its new proof.
    fn share(&mut self, root: u32) -> Result<u32, Refusal> {
        self.enter(root)?;
        for _ in 0..self.most.saturating_mul(ROUNDS_OF_STATE) {
            if let Some(number) = self.go_on()? {
                return Ok(number);
            }
        }
        Err(Refusal::Fault)
    }

    /// The proofs that were made.
    fn into_shared(self) -> Proofs {
        let Sharing { shared, .. } = self;
        shared
    }

    /// Follows the next branch of the last state, or makes its proof. The proof of the first state ends the walk.
    fn go_on(&mut self) -> Result<Option<u32>, Refusal> {
        let Some(visit) = self.visits.last().copied() else {
            return Err(Refusal::Fault);
        };
        match self.due.get(visit.next).copied() {
            Some(branch) => {
                self.follow(branch)?;
                Ok(None)
            }
            None => self.leave(visit),
        }
    }

    /// Adds the state at the end of the line, for which this proof was found.
    fn enter(&mut self, number: u32) -> Result<(), Refusal> {
        let Some(proof) = self.found.get(number) else {
            return Err(Refusal::Fault);
        };
        // Each state of the line becomes a proof.
        if self.shared.len().saturating_add(self.visits.len()) >= self.most {
            return Err(Refusal::Limit);
        }
        self.line.list_moves(&mut self.moves)?;
        let visit = Visit {
            settled: Settled::expanded(self.line.end(), proof.winner, proof.form),
            reached: None,
            next: self.due.len(),
            due: self.due.len(),
            made: self.made.len(),
            barred: self.barred.len(),
        };
        let reached = match proof.form {
            Form::Turn => self.list_turn(proof)?,
            Form::Replies => {
                self.list_replies(proof)?;
                list_barred(self.moves.as_slice(), &mut self.barred)?;
                None
            }
            Form::Alive => None,
            Form::Dead => return Err(Refusal::Fault),
        };
        self.visits.push(Visit { reached, ..visit })?;
        Ok(())
    }

    /// Lists the winner's turn as due, and returns the position after it if it is a move.
    fn list_turn(&mut self, proof: Proof) -> Result<Option<u64>, AllocError> {
        let Some(branch) = self.found.branch(proof, 0) else {
            return Ok(None);
        };
        let turn = branch.turn;
        self.due.push(branch)?;
        match move_of(self.moves.as_slice(), turn) {
            Some(played) => Ok(Some(played.position)),
            None => Ok(None),
        }
    }

    /// Lists the replies that are legal here as due.
    fn list_replies(&mut self, proof: Proof) -> Result<(), AllocError> {
        for place in 0..self.found.branches(proof).len() {
            if let Some(branch) = self.found.branch(proof, place) {
                if !is_barred(self.moves.as_slice(), branch.turn) {
                    self.due.push(branch)?;
                }
            }
        }
        Ok(())
    }

    /// The proof that was made before for the state of a found proof one turn further, if it holds there.
    fn known(&self, found: Proof) -> Option<u32> {
        let line = self.line.len().saturating_add(1);
        self.shared.find(found.key(), self.line.past(), line)
    }

    /// Uses what is known of the branch, or goes down it.
    fn follow(&mut self, branch: Branch) -> Result<(), Refusal> {
        let turn = branch.turn;
        let Below::Proof(number) = branch.below() else {
            return self.keep(turn, Below::Won);
        };
        let Some(found) = self.found.get(number) else {
            return Err(Refusal::Fault);
        };
        if let Some(number) = self.known(found) {
            return self.keep(turn, Below::Proof(number));
        }
        self.line.go(turn, found.key())?;
        self.enter(number)
    }

    /// Keeps the branch of the last state, and turns to its next one.
    fn keep(&mut self, turn: Turn, below: Below) -> Result<(), Refusal> {
        self.made.push(Branch::of(turn, below))?;
        self.pass_on();
        Ok(())
    }

    /// Turns to the next branch of the last state.
    fn pass_on(&mut self) {
        let last = self.visits.len().saturating_sub(1);
        if last < self.visits.len() {
            self.visits[last].next = self.visits[last].next.saturating_add(1);
        }
    }

    /// Makes the proof of the last state, and gives it to the state above. Returns its number if there is no state above.
    fn leave(&mut self, visit: Visit) -> Result<Option<u32>, Refusal> {
        let number = self.add(visit)?;
        self.due.truncate(visit.due);
        self.made.truncate(visit.made);
        self.barred.truncate(visit.barred);
        self.visits.pop();
        let Some(above) = self.visits.last().copied() else {
            return Ok(Some(number));
        };
        self.line.back();
        let Some(branch) = self.due.get(above.next).copied() else {
            return Err(Refusal::Fault);
        };
        self.keep(branch.turn, Below::Proof(number))?;
        Ok(None)
    }

    fn add(&mut self, visit: Visit) -> Result<u32, AllocError> {
        if visit.settled.form == Form::Alive {
            return self.shared.add_leaf(visit.settled);
        }
        self.shared.add(
            visit.settled,
            part_from(self.made.as_slice(), visit.made),
            visit.reached,
            part_from(self.barred.as_slice(), visit.barred),
        )
    }
}

/// Whether the turn is a move that the past bars.
fn is_barred(moves: &[Move], turn: Turn) -> bool {
    match move_of(moves, turn) {
        Some(played) => played.is_barred,
        None => false,
    }
}
