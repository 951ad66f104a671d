//! The proofs that a proof uses.

use crate::lists::Lists;
use crate::needed::Needed;
use crate::proof::{Below, Branch, Proof, Span};
use crate::proofs::{Proofs, number_of};
use crate::refusal::Refusal;
use std::alloc::{AllocError, Global};

/// The greatest number of states of an answer from which a claim is made: the claim of a larger one passes a limit.
pub const MAX_STATES: usize = 130_000;

/// The numbers that proofs get when those that are not used are left out.
#[derive(Drop)]
struct Numbers {
    /// For each proof, whether it is used, and its new number.
    is_used: Vec<bool>,
    numbers: Vec<u32>,
    /// How many proofs and branches are used.
    proofs: usize,
    branches: usize,
}

impl Numbers {
    fn of(alloc: Global, count: usize) -> Result<Numbers, AllocError> {
        let mut is_used = Vec::new(alloc);
        is_used.resize(count, false)?;
        let mut numbers = Vec::new(alloc);
        numbers.resize(count, 0)?;
        Ok(Numbers {
            is_used,
            numbers,
            proofs: 0,
            branches: 0,
        })
    }

    /// The numbers of the proofs, of which those are used that this one uses.
    fn below(alloc: Global, proofs: &Proofs, root: u32) -> Result<Numbers, AllocError> {
        let mut numbers = Numbers::of(alloc, proofs.len())?;
        numbers.mark_below(proofs, root as usize);
        Ok(numbers)
    }

    fn uses(&self, place: usize) -> bool {
        self.is_used.get(place).copied() == Some(true)
    }

    fn mark(&mut self, place: usize) {
        if place < self.is_used.len() {
            self.is_used[place] = true;
        }
    }

    fn count_used(&self) -> usize {
        let mut count: usize = 0;
        for is_used in self.is_used.as_slice() {
            count = count.saturating_add(*is_used as usize);
        }
        count
    }

    /// Marks what the marked proofs up to the root use. A proof uses only lower ones.
    fn mark_below(&mut self, proofs: &Proofs, root: usize) {
        self.mark(root);
        for back in 0..=root {
            let place = root - back;
            if self.uses(place) {
                if let Some(proof) = proofs.at(place) {
                    self.mark_branches(proofs, proof);
                }
            }
        }
    }

    fn mark_branches(&mut self, proofs: &Proofs, proof: Proof) {
        for branch in proofs.branches(proof) {
            if let Below::Proof(number) = branch.below() {
                self.mark(number as usize);
            }
        }
    }

    /// Moves the proof down to its new place, with its branches. The lower ones have been moved.
    fn move_down(&mut self, proofs: &mut Proofs, place: usize) -> Result<(), AllocError> {
        let Some(proof) = proofs.at(place) else {
            return Err(AllocError);
        };
        let number = number_of(self.proofs)?;
        let from = number_of(self.branches)?;
        for index in 0..proofs.branches(proof).len() {
            if let Some(branch) = proofs.branch(proof, index) {
                self.move_branch(proofs, branch);
            }
        }
        let to = number_of(self.branches)?;
        if place < self.numbers.len() {
            self.numbers[place] = number;
        }
        if self.proofs < proofs.proofs.len() {
            proofs.proofs[self.proofs] = proof.with_branches(Span { from, to });
        }
        self.proofs = self.proofs.saturating_add(1);
        Ok(())
    }

    /// Moves the branch down, with the new number of what is below it.
    fn move_branch(&mut self, proofs: &mut Proofs, branch: Branch) {
        let turn = branch.turn;
        let below = match branch.below() {
            Below::Won => Below::Won,
            Below::Proof(number) => Below::Proof(self.new_number(number)),
        };
        if self.branches < proofs.branches.len() {
            proofs.branches[self.branches] = Branch::of(turn, below);
        }
        self.branches = self.branches.saturating_add(1);
    }

    fn new_number(&self, number: u32) -> u32 {
        match self.numbers.get(number as usize).copied() {
            Some(number) => number,
            None => 0,
        }
    }
}

impl Proofs {
    /// Whether this proof has too many states for a claim to be made of it. The time is linear in the number of all proofs.
    pub fn is_too_large(&self, alloc: Global, root: u32) -> Result<bool, AllocError> {
        if self.get(root).is_none() {
            return Ok(false);
        }
        Ok(Numbers::below(alloc, self, root)?.count_used() > MAX_STATES)
    }

    /// Leaves out all proofs that this one does not use, with their memory, and returns its new number: it is the last. All that are
    /// left can be found. The time is linear in the number of all proofs. After a refusal the proofs are of no use.
    pub fn keep_used(&mut self, alloc: Global, root: u32) -> Result<u32, Refusal> {
        let root = self.leave_out_unused(alloc, root)?;
        self.show_all()?;
        Ok(root)
    }

    /// Leaves only the tree of this proof, whose number it returns: the proofs that it uses, without the conditions under which they
    /// hold. None of them can be found. The time is linear in the number of all proofs. After a refusal the proofs are of no use.
    pub fn keep_tree(&mut self, alloc: Global, root: u32) -> Result<u32, Refusal> {
        let root = self.leave_out_unused(alloc, root)?;
        self.drop_index();
        for place in 0..self.proofs.len() {
            self.proofs[place] = self.proofs[place].without_conditions();
        }
        self.conditions = Vec::new(alloc);
        self.lists = Lists::new(alloc);
        self.needed = Needed::new(alloc);
        Ok(root)
    }

    /// Leaves out all proofs that this one does not use, with their memory, and returns its new number.
    fn leave_out_unused(&mut self, alloc: Global, root: u32) -> Result<u32, Refusal> {
        if root as usize >= self.len() {
            return Err(Refusal::Fault);
        }
        let mut numbers = Numbers::below(alloc, self, root)?;
        for place in 0..=(root as usize) {
            if numbers.uses(place) {
                numbers.move_down(self, place)?;
            }
        }
        self.proofs.truncate(numbers.proofs);
        self.branches.truncate(numbers.branches);
        self.proofs.shrink_to_fit();
        self.branches.shrink_to_fit();
        Ok(numbers.new_number(root))
    }
}
