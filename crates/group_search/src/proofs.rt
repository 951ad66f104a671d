//! What has been proved of the chains of a board.

use crate::claim::AreaText;
use crate::finding::Kind;
use go_points::Colour;
use safety_search::{Board, NumberSet};
use std::alloc::{AllocError, Global};

/// A proof that chains stand, or are taken.
#[derive(Drop)]
pub(crate) struct Proof {
    pub(crate) kind: Kind,
    /// The side that answers.
    pub(crate) colour: Colour,
    /// The chains that stand, or are taken.
    pub(crate) chains: NumberSet,
    /// Its regions, and with those of the friends it rests on.
    pub(crate) region: NumberSet,
    pub(crate) support: NumberSet,
    /// The friends it rests on.
    pub(crate) friends: NumberSet,
    /// Whether its regions meet those of no other proof of its side.
    pub(crate) is_together: bool,
    pub(crate) text: AreaText,
}

/// All proofs, in the order in which they were found: each rests on earlier ones alone.
#[derive(Drop)]
pub(crate) struct Proofs {
    list: Vec<Proof>,
    /// The first proof of each chain.
    by: Vec<Option<u32>>,
}

impl Proofs {
    pub(crate) fn of(alloc: Global, chains: usize) -> Result<Proofs, AllocError> {
        let mut by = Vec::new(alloc);
        for _ in 0..chains {
            by.push(None)?;
        }
        Ok(Proofs {
            list: Vec::new(alloc),
            by,
        })
    }

    /// Adds a proof, and returns the chains of which nothing was known before.
    pub(crate) fn add(&mut self, proof: Proof) -> Result<NumberSet, AllocError> {
        let number = self.list.len().min(u32::MAX as usize) as u32;
        let chains = proof.chains;
        self.list.push(proof)?;
        let mut decided = NumberSet::empty();
        for chain in chains.iter() {
            if chain < self.by.len() && self.by[chain].is_none() {
                self.by[chain] = Some(number);
                decided.insert(chain);
            }
        }
        Ok(decided)
    }

    /// The first proof of the chain.
    pub(crate) fn proof_of(&self, chain: usize) -> Option<(usize, &Proof)> {
        let number = self.by.get(chain).copied()?? as usize;
        let proof = self.list.get(number)?;
        Some((number, proof))
    }

    pub(crate) fn get(&self, number: usize) -> Option<&Proof> {
        self.list.get(number)
    }

    pub(crate) fn is_known(&self, chain: usize) -> bool {
        self.proof_of(chain).is_some()
    }

    /// Whether the chain stands together with all others, by regions that do not meet this one.
    pub(crate) fn stands(&self, chain: usize, region: &NumberSet) -> bool {
        match self.proof_of(chain) {
            Some((_, proof)) => proof.is_together && !proof.support.meets(region),
            None => false,
        }
    }

    /// Those of these chains that stand so.
    pub(crate) fn standing(&self, chains: &NumberSet, region: &NumberSet) -> NumberSet {
        let mut standing = NumberSet::empty();
        for chain in chains.iter() {
            if self.stands(chain, region) {
                standing.insert(chain);
            }
        }
        standing
    }

    /// The support of these chains.
    pub(crate) fn support_of(&self, chains: &NumberSet) -> NumberSet {
        let mut support = NumberSet::empty();
        for chain in chains.iter() {
            if let Some((_, proof)) = self.proof_of(chain) {
                support = support.or(&proof.support);
            }
        }
        support
    }

    /// The regions of all proofs of this side that hold together and are more than shape.
    pub(crate) fn answered_regions(&self, colour: Colour) -> NumberSet {
        let mut regions = NumberSet::empty();
        for proof in self.list.iter() {
            if proof.is_together && proof.colour == colour && proof.kind != Kind::PassAlive {
                regions = regions.or(&proof.region);
            }
        }
        regions
    }

    /// The chains of this colour, of which nothing is known.
    pub(crate) fn unknown(&self, board: &Board, colour: Colour) -> NumberSet {
        let mut unknown = board.chains_at(&board.stones(colour));
        for chain in 0..self.by.len() {
            if self.is_known(chain) {
                unknown.remove(chain);
            }
        }
        unknown
    }

    /// The proofs on which these friends rest, by their numbers: `needed` has a place for each proof.
    pub(crate) fn find_needed(
        &self,
        alloc: Global,
        friends: &NumberSet,
    ) -> Result<Vec<bool>, AllocError> {
        let mut needed = Vec::new(alloc);
        for _ in 0..self.list.len() {
            needed.push(false)?;
        }
        self.need(&mut needed, friends);
        for back in 1..=self.list.len() {
            let number = self.list.len() - back;
            if needed.get(number).copied() == Some(true) {
                if let Some(proof) = self.list.get(number) {
                    self.need(&mut needed, &proof.friends);
                }
            }
        }
        Ok(needed)
    }

    /// Marks the first proofs of these chains.
    fn need(&self, needed: &mut Vec<bool>, chains: &NumberSet) {
        for chain in chains.iter() {
            if let Some((number, _)) = self.proof_of(chain) {
                if number < needed.len() {
                    needed[number] = true;
                }
            }
        }
    }

    /// Appends the heads, or the bodies, of these proofs, but those of chains that live by their shape unless `has_shapes` is set.
    pub(crate) fn push_parts(
        &self,
        text: &mut Vec<u8>,
        needed: &[bool],
        are_heads: bool,
        has_shapes: bool,
    ) -> Result<(), AllocError> {
        for number in 0..needed.len() {
            if needed[number] {
                if let Some(proof) = self.list.get(number) {
                    if has_shapes || proof.kind != Kind::PassAlive {
                        let part = if are_heads {
                            proof.text.head.as_slice()
                        } else {
                            proof.text.body.as_slice()
                        };
                        text.extend_from_slice(part)?;
                    }
                }
            }
        }
        Ok(())
    }
}
