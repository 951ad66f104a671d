//! Settled states, each with a proof of who wins and the conditions on the past under which the proof holds.
//!
//! A proof is never changed, and uses only lower ones. A wrong number in it could at worst lead to a claim that the checker
//! refuses, so numbers are tested where they are used, and nothing is promised about them.

use crate::fingerprint::fingerprint_of;
use crate::gathered::Gathered;
use crate::lists::Lists;
use crate::marks::Marks;
use crate::needed::Needed;
use crate::past::Past;
use crate::proof::{Below, Branch, Conditions, Proof, Settled, Span, TreeSize};
use indexmap::IndexMap;
use pn_table::Key;
use std::alloc::{AllocError, Global};

/// The greatest number of turns of a line of play together with a proof at its end.
pub const MAX_LINE: usize = 1_900;

/// What a leaf counts for: it is one node of a claim.
const LEAF_TURNS: u64 = 1;

const LEAF_DEPTH: u16 = 1;

/// For how many proofs there is room among the marks at first.
const FEW: usize = 512;

/// All proofs, lower ones first.
#[derive(Drop)]
pub struct Proofs {
    pub(crate) proofs: Vec<Proof>,
    /// The latest proof of a state whose position has the fingerprint. Some states share it, so a chain of proofs is looked through.
    latest: IndexMap<u32, u32>,
    /// The positions of the states that have a proof.
    marks: Marks,
    pub(crate) branches: Vec<Branch>,
    /// The conditions of proofs, by their numbers.
    pub(crate) conditions: Vec<Conditions>,
    /// The results that must not have occurred, and a list of them that is being made.
    pub(crate) lists: Lists,
    pub(crate) gathered: Gathered,
    /// The positions that must have occurred.
    pub(crate) needed: Needed,
}

impl Proofs {
    pub fn new(alloc: Global) -> Proofs {
        Proofs {
            proofs: Vec::new(alloc),
            latest: IndexMap::new(alloc),
            marks: Marks::new(alloc),
            branches: Vec::new(alloc),
            conditions: Vec::new(alloc),
            lists: Lists::new(alloc),
            gathered: Gathered::new(alloc),
            needed: Needed::new(alloc),
        }
    }

    pub fn len(&self) -> usize {
        self.proofs.len()
    }

    pub fn get(&self, number: u32) -> Option<Proof> {
        self.proofs.get(number as usize).copied()
    }

    /// The proof at this place in the list.
    pub fn at(&self, place: usize) -> Option<Proof> {
        self.proofs.get(place).copied()
    }

    /// The turns of what is below a turn.
    pub fn turns_below(&self, below: Below) -> u64 {
        match below {
            Below::Won => 0,
            Below::Proof(number) => self.turns_of(number),
        }
    }

    /// The turns of the proof with this number.
    pub fn turns_of(&self, number: u32) -> u64 {
        match self.get(number) {
            Some(proof) => proof.turns,
            None => 0,
        }
    }

    pub fn branches(&self, proof: Proof) -> &[Branch] {
        part(self.branches.as_slice(), proof.branches)
    }

    /// Whether the same proofs are below these branches as below those of the proof.
    pub fn has_same_below(&self, proof: Proof, made: &[Branch]) -> bool {
        let branches = self.branches(proof);
        if made.len() != branches.len() {
            return false;
        }
        for place in 0..made.len() {
            if place < branches.len() && made[place].below() != branches[place].below() {
                return false;
            }
        }
        true
    }

    /// The branch at this place.
    pub fn branch(&self, proof: Proof, place: usize) -> Option<Branch> {
        self.branches(proof).get(place).copied()
    }

    /// Whether the proof leaves out a move that the past bars.
    pub fn needs_a_past(&self, proof: Proof) -> bool {
        self.conditions_of(proof).had.get().is_some()
    }

    /// The positions that must have occurred, ascending.
    pub fn had(&self, proof: Proof) -> &[u64] {
        self.needed.get(self.conditions_of(proof).had)
    }

    /// Whether the proof holds with this past.
    fn holds(&self, proof: Proof, past: &Past) -> bool {
        let conditions = self.conditions_of(proof);
        !past.may_have_any(self.lists.get(conditions.not.more))
            && past.has_all(self.needed.get(conditions.had))
            && !past.may_have_any(self.lists.get(conditions.not.listed))
    }

    /// Whether the proof with this number holds with this past.
    pub fn holds_at(&self, number: u32, past: &Past) -> bool {
        match self.get(number) {
            Some(proof) => self.holds(proof, past),
            None => false,
        }
    }

    /// The latest proof of a state whose position has the fingerprint of this one.
    fn latest_at(&self, position: u64) -> Option<u32> {
        self.latest.get(&fingerprint_of(position)).copied()
    }

    /// Whether there may be a proof of a state with this position. It looks at one word, and nothing else is found of most others.
    pub fn may_have(&self, position: u64) -> bool {
        !self.latest.is_empty() && self.marks.may_have(position)
    }

    /// The proof with the fewest turns among those of the state that hold with this past at the end of a line of `line` turns.
    pub fn find(&self, key: Key, past: &Past, line: usize) -> Option<u32> {
        if !self.may_have(key.position) {
            return None;
        }
        let mut next = self.latest_at(key.position);
        let mut found = None;
        let mut least = u64::MAX;
        for _ in 0..self.proofs.len() {
            let Some(number) = next else {
                return found;
            };
            let proof = self.get(number)?;
            if proof.key() == key
                && (found.is_none() || proof.turns < least)
                && line.saturating_add(proof.depth as usize) <= MAX_LINE
                && self.holds(proof, past)
            {
                found = next;
                least = proof.turns;
            }
            next = proof.next();
        }
        found
    }

    /// Adds the proof of the state by these branches, and returns its number. `reached` is the position after the winner's move,
    /// and `barred` are the results of moves that the past bars.
    pub fn add(
        &mut self,
        settled: Settled,
        branches: &[Branch],
        reached: Option<u64>,
        barred: &[u64],
    ) -> Result<u32, AllocError> {
        let not = self.add_not(branches, reached)?;
        let had = self.add_had(settled.key.position, branches, barred)?;
        let conditions = self.keep_conditions(branches, Conditions { not, had })?;
        let size = self.size_above(branches);
        self.add_with(settled, branches, conditions, size)
    }

    /// Adds a proof without branches whose tree is estimated to have this many turns and this depth, and returns its number.
    pub fn add_by_shape(
        &mut self,
        settled: Settled,
        turns: u64,
        depth: u16,
    ) -> Result<u32, AllocError> {
        let size = TreeSize { turns, depth };
        self.add_with(settled, &[], None, size)
    }

    /// Adds the proof of a state that is a leaf of short claims, and returns its number. It holds with any past.
    pub fn add_leaf(&mut self, settled: Settled) -> Result<u32, AllocError> {
        self.add_by_shape(settled, LEAF_TURNS, LEAF_DEPTH)
    }

    /// Adds the proof with these branches, under the conditions with this number.
    fn add_with(
        &mut self,
        settled: Settled,
        branches: &[Branch],
        conditions: Option<u32>,
        size: TreeSize,
    ) -> Result<u32, AllocError> {
        let number = number_of(self.proofs.len())?;
        self.mark(settled.key.position)?;
        let from = number_of(self.branches.len())?;
        self.branches.extend_from_slice(branches)?;
        let to = number_of(self.branches.len())?;
        let position = settled.key.position;
        let next = self.latest_at(position);
        let proof = Proof::of(settled, Span { from, to }, conditions, size, next);
        self.proofs.push(proof)?;
        self.latest.insert(fingerprint_of(position), number)?;
        Ok(number)
    }

    /// Marks the position, with room for twice as many if there is none.
    fn mark(&mut self, position: u64) -> Result<(), AllocError> {
        let count = self.proofs.len();
        if count >= self.marks.room() {
            self.marks.make_room(count.saturating_mul(2).max(FEW))?;
            for place in 0..count {
                if let Some(proof) = self.at(place) {
                    self.marks.mark(proof.key().position);
                }
            }
        }
        self.marks.mark(position);
        Ok(())
    }

    /// Whether a proof of the state can be found.
    pub fn knows(&self, key: Key) -> bool {
        if !self.may_have(key.position) {
            return false;
        }
        let mut next = self.latest_at(key.position);
        for _ in 0..self.proofs.len() {
            let Some(number) = next else {
                return false;
            };
            let Some(proof) = self.get(number) else {
                return false;
            };
            if proof.key() == key {
                return true;
            }
            next = proof.next();
        }
        false
    }

    /// Hides all proofs: none is found any more.
    pub fn hide_all(&mut self) {
        self.latest.clear();
    }

    /// Hides the proofs from this number on, all of which were added last and can be found.
    pub fn hide_from(&mut self, first: usize) -> Result<(), AllocError> {
        for back in first..self.proofs.len() {
            let place = self
                .proofs
                .len()
                .saturating_sub(1)
                .saturating_sub(back - first);
            if let Some(proof) = self.at(place) {
                let fingerprint = fingerprint_of(proof.key().position);
                match proof.next() {
                    Some(before) => {
                        self.latest.insert(fingerprint, before)?;
                    }
                    None => {
                        self.latest.swap_remove(&fingerprint);
                    }
                }
            }
        }
        Ok(())
    }

    /// Makes the proof at this place in the list findable again.
    pub fn show(&mut self, place: usize) -> Result<(), AllocError> {
        let number = number_of(place)?;
        if place < self.proofs.len() {
            let proof = self.proofs[place];
            let position = proof.key().position;
            self.proofs[place] = proof.after(self.latest_at(position));
            self.latest.insert(fingerprint_of(position), number)?;
        }
        Ok(())
    }

    /// Hides all proofs, and gives back the memory by which they are found.
    pub(crate) fn drop_index(&mut self) {
        self.hide_all();
        self.latest.shrink_to_fit();
    }

    /// Makes all proofs findable, with no more memory than that needs.
    pub(crate) fn show_all(&mut self) -> Result<(), AllocError> {
        self.drop_index();
        for place in 0..self.proofs.len() {
            self.show(place)?;
        }
        Ok(())
    }

    /// The turns and the depth of the tree of these branches.
    fn size_above(&self, branches: &[Branch]) -> TreeSize {
        let mut turns: u64 = 0;
        let mut depth: u16 = 0;
        for branch in branches {
            turns = turns.saturating_add(1);
            if let Below::Proof(number) = branch.below() {
                if let Some(proof) = self.get(number) {
                    turns = turns.saturating_add(proof.turns);
                    depth = depth.max(proof.depth);
                }
            }
        }
        TreeSize {
            turns,
            depth: depth.saturating_add(1),
        }
    }
}

/// A place in a list as a number; memory for longer lists is refused.
pub(crate) fn number_of(place: usize) -> Result<u32, AllocError> {
    match u32::try_from(place) {
        Ok(number) => Ok(number),
        Err(_) => Err(AllocError),
    }
}

/// The part of the list from this place on.
pub fn part_from<T>(all: &[T], from: usize) -> &[T] {
    if from <= all.len() {
        &all[from..]
    } else {
        &all[..0]
    }
}

/// The part of the list.
pub(crate) fn part<T>(all: &[T], span: Span) -> &[T] {
    let from = span.from as usize;
    let to = span.to as usize;
    if from <= to && to <= all.len() {
        &all[from..to]
    } else {
        &all[..0]
    }
}
