//! How many colourings a lemma would list.

use go_points::Turn;
use state_proofs::{Below, Form, Proof, Proofs};
use std::alloc::{AllocError, Global};

/// Walks over all that is below a proof, to count the results of the winner's moves there. It looks at no board, so states with the
/// same colouring count as several.
#[derive(Drop)]
pub(crate) struct ListLength {
    /// For each proof, the number of the last walk that met it. Walks are counted from 1.
    met: Vec<u32>,
    walks: u32,
    /// The proofs that were met, and are still to be followed.
    open: Vec<u32>,
}

impl ListLength {
    pub(crate) fn new(alloc: Global, proofs: &Proofs) -> Result<ListLength, AllocError> {
        let mut met = Vec::with_capacity(alloc, proofs.len())?;
        for _ in 0..proofs.len() {
            met.push(0)?;
        }
        Ok(ListLength {
            met,
            walks: 0,
            open: Vec::new(alloc),
        })
    }

    /// How many colourings the lemma of the proof would list, or any number above `most` if there are more.
    pub(crate) fn count(
        &mut self,
        proofs: &Proofs,
        proof: Proof,
        most: u64,
    ) -> Result<u64, AllocError> {
        self.walks = self.walks.saturating_add(1);
        self.open.clear();
        let mut listed = self.follow(proofs, proof)?;
        for _ in 0..proofs.len() {
            if listed > most {
                return Ok(listed);
            }
            let Some(next) = self.open.pop() else {
                return Ok(listed);
            };
            if let Some(proof) = proofs.get(next) {
                listed = listed.saturating_add(self.follow(proofs, proof)?);
            }
        }
        Ok(listed)
    }

    /// Meets what is below the proof, and counts the colouring that the winner's turn there leads to.
    fn follow(&mut self, proofs: &Proofs, proof: Proof) -> Result<u64, AllocError> {
        let mut listed = 0;
        for branch in proofs.branches(proof) {
            if proof.form == Form::Turn && branch.turn != Turn::Pass {
                listed = 1;
            }
            if let Below::Proof(number) = branch.below() {
                self.meet(number)?;
            }
        }
        Ok(listed)
    }

    /// Meets the proof, unless this walk has met it before.
    fn meet(&mut self, number: u32) -> Result<(), AllocError> {
        let place = number as usize;
        if place < self.met.len() && self.met[place] != self.walks {
            self.met[place] = self.walks;
            self.open.push(number)?;
        }
        Ok(())
    }
}
