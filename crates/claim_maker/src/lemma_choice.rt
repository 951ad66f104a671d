//! Which proofs become lemmas: those that save more nodes than their lists cost, or a single one where there are none.

use crate::claim::{Choice, Pasts};
use crate::list_length::ListLength;
use proof_cert::MAX_NODES;
use state_proofs::{Below, Form, Proof, Proofs, Refusal};
use std::alloc::{AllocError, Global};

/// A claim that is counted to have more nodes is not begun. The count has all replies, and the past may bar some, so it may be too
/// large, but hardly twice as large.
const MAX_COUNTED: u64 = 2 * MAX_NODES as u64;

/// How many nodes the claims that are tried for one answer may be counted to have in all: no step counts how they are written and
/// judged.
pub const MAX_TRIED: u64 = 3 * MAX_NODES as u64;

/// Takes the nodes of a claim from those that may still be tried. Refused if a claim with so many is not begun.
pub(crate) fn take_nodes(nodes: u64, left: &mut u64) -> Result<(), Refusal> {
    if nodes > MAX_COUNTED || nodes > *left {
        return Err(Refusal::Limit);
    }
    *left -= nodes;
    Ok(())
}

/// The lemmas that were chosen, from the lowest proof up.
#[derive(Drop)]
pub(crate) struct LemmaChoice {
    choice: Choice,
    /// The place of the proof that is the only lemma, where no other would be one.
    only: Option<usize>,
    is_lemma: Vec<bool>,
    /// For each proof, how many branches lead to it.
    uses: Vec<u32>,
    /// For each proof, how many nodes stand for it where it is used: one for a lemma, and all of its tree for another.
    nodes: Vec<u64>,
    /// How many nodes the bodies of all lemmas have.
    bodies: u64,
    list_length: ListLength,
}

impl LemmaChoice {
    /// Chooses among all proofs. Below each that is used several times it walks no further than until the list is known to be too
    /// long.
    pub(crate) fn new(
        alloc: Global,
        proofs: &Proofs,
        choice: Choice,
    ) -> Result<LemmaChoice, AllocError> {
        let mut made = LemmaChoice {
            choice,
            only: None,
            is_lemma: Vec::with_capacity(alloc, proofs.len())?,
            uses: count_uses(alloc, proofs)?,
            nodes: Vec::with_capacity(alloc, proofs.len())?,
            bodies: 0,
            list_length: ListLength::new(alloc, proofs)?,
        };
        made.choose(proofs)?;
        if !made.is_lemma.contains(&true) {
            if let Some(least) = choice.otherwise {
                made.choose_only(proofs, least)?;
            }
        }
        Ok(made)
    }

    /// Whether the proof becomes a lemma.
    pub(crate) fn is_lemma(&self, number: u32) -> bool {
        self.is_lemma.get(number as usize).copied() == Some(true)
    }

    /// How many nodes the claim of this proof has at most.
    pub(crate) fn nodes_of_claim(&self, root: u32) -> u64 {
        self.bodies.saturating_add(self.nodes_for(root))
    }

    /// Chooses among all proofs, from the lowest up.
    fn choose(&mut self, proofs: &Proofs) -> Result<(), AllocError> {
        for place in 0..proofs.len() {
            if let Some(proof) = proofs.at(place) {
                self.add(proofs, place, proof)?;
            }
        }
        Ok(())
    }

    /// Makes the lowest proof with at least so many turns the only lemma, if there is one that may be a lemma.
    fn choose_only(&mut self, proofs: &Proofs, least: u64) -> Result<(), AllocError> {
        self.only = self.lowest(proofs, least);
        if self.only.is_none() {
            return Ok(());
        }
        self.is_lemma.clear();
        self.nodes.clear();
        self.choose(proofs)
    }

    /// The place of the lowest proof with at least so many turns that may be a lemma.
    fn lowest(&self, proofs: &Proofs, least: u64) -> Option<usize> {
        for place in 0..proofs.len() {
            if let Some(proof) = proofs.at(place) {
                if self.may_be_lemma(proofs, place, proof, least) {
                    return Some(place);
                }
            }
        }
        None
    }

    /// Chooses whether the next proof, at this place, becomes a lemma.
    fn add(&mut self, proofs: &Proofs, place: usize, proof: Proof) -> Result<(), AllocError> {
        let own = self.nodes_of_tree(proofs, proof);
        let is_lemma = match self.only {
            Some(only) => place == only,
            None => {
                self.may_be_lemma(proofs, place, proof, self.choice.least)
                    && self.pays(proofs, place, proof, own)?
            }
        };
        if is_lemma {
            self.bodies = self.bodies.saturating_add(own);
        }
        self.nodes.push(if is_lemma { 1 } else { own })?;
        self.is_lemma.push(is_lemma)?;
        Ok(())
    }

    /// Whether the proof is used several times, has at least so many turns, and needs no past if none is to. A leaf is no lemma.
    fn may_be_lemma(&self, proofs: &Proofs, place: usize, proof: Proof, least: u64) -> bool {
        self.uses_of(place) > 1
            && proof.form != Form::Alive
            && proof.turns >= least
            && (self.choice.pasts == Pasts::Needed || !proofs.needs_a_past(proof))
    }

    /// Whether the lemma saves enough nodes for the colourings that it has: its root and its lists. Its body has `own` nodes.
    fn pays(
        &mut self,
        proofs: &Proofs,
        place: usize,
        proof: Proof,
        own: u64,
    ) -> Result<bool, AllocError> {
        let saved = own.saturating_mul(self.uses_of(place).saturating_sub(1) as u64);
        let Some(most) = self.choice.saving.most_colourings(saved) else {
            return Ok(true);
        };
        let first = (proofs.had(proof).len() as u64).saturating_add(1);
        if first > most {
            return Ok(false);
        }
        let listed = self.list_length.count(proofs, proof, most - first)?;
        Ok(listed <= most - first)
    }

    fn uses_of(&self, place: usize) -> u32 {
        match self.uses.get(place).copied() {
            Some(uses) => uses,
            None => 0,
        }
    }

    /// The nodes of a proof's tree.
    fn nodes_of_tree(&self, proofs: &Proofs, proof: Proof) -> u64 {
        let mut nodes: u64 = 1;
        for branch in proofs.branches(proof) {
            nodes = nodes.saturating_add(self.nodes_below(branch.below()));
        }
        nodes
    }

    /// The nodes of what is below a turn.
    fn nodes_below(&self, below: Below) -> u64 {
        match below {
            Below::Won => 1,
            Below::Proof(number) => self.nodes_for(number),
        }
    }

    /// How many nodes stand for this proof where it is used. A proof uses only lower ones, which are counted before it.
    fn nodes_for(&self, number: u32) -> u64 {
        match self.nodes.get(number as usize).copied() {
            Some(nodes) => nodes,
            None => 0,
        }
    }
}

/// For each proof, how many branches lead to it.
fn count_uses(alloc: Global, proofs: &Proofs) -> Result<Vec<u32>, AllocError> {
    let mut uses = Vec::with_capacity(alloc, proofs.len())?;
    for _ in 0..proofs.len() {
        uses.push(0)?;
    }
    for place in 0..proofs.len() {
        if let Some(proof) = proofs.at(place) {
            count_uses_below(proofs, proof, &mut uses);
        }
    }
    Ok(uses)
}

/// Counts one more use of each proof below a branch of this one.
fn count_uses_below(proofs: &Proofs, proof: Proof, uses: &mut Vec<u32>) {
    for branch in proofs.branches(proof) {
        if let Below::Proof(number) = branch.below() {
            let place = number as usize;
            if place < uses.len() {
                uses[place] = uses[place].saturating_add(1);
            }
        }
    }
}
