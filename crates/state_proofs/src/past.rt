//! The positions that have occurred, by their keys.

use crate::fingerprint::fingerprint_of;
use indexmap::{IndexMap, IndexSet};
use std::alloc::{AllocError, Global};
use stone_key::key_of;
use target_game::Problem;

/// How many groups of positions are counted.
const GROUPS: usize = 1024;

/// The keys of the colourings that have occurred, in order of first occurrence.
#[derive(Drop)]
pub struct Past {
    positions: IndexSet<u64>,
    /// How many of them have each fingerprint.
    fingerprints: IndexMap<u32, u32>,
    /// How many of them are in each group: most questions are about a position whose group is empty.
    counts: [u16; GROUPS],
}

// The group of the positions with this fingerprint.
fn group_of(fingerprint: u32) -> usize {
    fingerprint as usize % GROUPS
}

impl Past {
    /// What has occurred before the problem.
    pub fn of(alloc: Global, problem: &Problem) -> Result<Past, AllocError> {
        let mut past = Past::new(alloc);
        for colouring in problem.history() {
            past.add(key_of(colouring))?;
        }
        Ok(past)
    }

    /// No positions.
    pub fn new(alloc: Global) -> Past {
        Past {
            positions: IndexSet::new(alloc),
            fingerprints: IndexMap::new(alloc),
            counts: [0; GROUPS],
        }
    }

    /// How many positions have occurred.
    pub fn len(&self) -> usize {
        self.positions.len()
    }

    /// The place of the position in the order of first occurrence. `None` if it has not occurred.
    pub fn place_of(&self, position: u64) -> Option<usize> {
        self.positions.get_index_of(&position)
    }

    pub fn has(&self, position: u64) -> bool {
        !self.is_empty_group(fingerprint_of(position)) && self.positions.contains(&position)
    }

    // Whether no position of the fingerprint's group has occurred.
    fn is_empty_group(&self, fingerprint: u32) -> bool {
        self.counts.get(group_of(fingerprint)).copied() == Some(0)
    }

    // How many positions with the fingerprint have occurred.
    fn count_of(&self, fingerprint: u32) -> u32 {
        if self.is_empty_group(fingerprint) {
            return 0;
        }
        match self.fingerprints.get(&fingerprint) {
            Some(count) => *count,
            None => 0,
        }
    }

    /// Adds the position, and returns whether it is new.
    pub fn add(&mut self, position: u64) -> Result<bool, AllocError> {
        let is_new = self.positions.insert(position)?;
        if is_new && !self.count_one_more(fingerprint_of(position)) {
            self.positions.pop();
            return Err(AllocError);
        }
        Ok(is_new)
    }

    // Counts one position more with the fingerprint, and returns whether there was memory for it.
    fn count_one_more(&mut self, fingerprint: u32) -> bool {
        let count = self.count_of(fingerprint).saturating_add(1);
        if self.fingerprints.insert(fingerprint, count).is_err() {
            return false;
        }
        let group = group_of(fingerprint);
        if group < self.counts.len() {
            self.counts[group] = self.counts[group].saturating_add(1);
        }
        true
    }

    /// Takes the latest position off.
    pub fn take_last(&mut self) {
        if let Some(position) = self.positions.pop() {
            self.count_one_fewer(fingerprint_of(position));
        }
    }

    // Counts one position fewer with the fingerprint.
    fn count_one_fewer(&mut self, fingerprint: u32) {
        let count = self.count_of(fingerprint);
        if count > 1 {
            // No memory is wanted for a key that is there.
            let _before = self.fingerprints.insert(fingerprint, count - 1);
        } else {
            self.fingerprints.swap_remove(&fingerprint);
        }
        let group = group_of(fingerprint);
        if group < self.counts.len() {
            self.counts[group] = self.counts[group].saturating_sub(1);
        }
    }

    /// Whether a position with one of the fingerprints, which ascend, has occurred.
    pub(crate) fn may_have_any(&self, fingerprints: &[u32]) -> bool {
        // The shorter side is walked.
        if fingerprints.len() / 4 < self.positions.len() {
            return self.may_have_one_of(fingerprints);
        }
        self.is_met_by(fingerprints)
    }

    // The same, looking up each of them.
    fn may_have_one_of(&self, fingerprints: &[u32]) -> bool {
        for fingerprint in fingerprints {
            if self.count_of(*fingerprint) > 0 {
                return true;
            }
        }
        false
    }

    // The same, looking at each position that has occurred.
    fn is_met_by(&self, fingerprints: &[u32]) -> bool {
        for position in self.positions.iter() {
            if fingerprints
                .binary_search(&fingerprint_of(*position))
                .is_ok()
            {
                return true;
            }
        }
        false
    }

    /// Whether all of the positions have occurred.
    pub fn has_all(&self, positions: &[u64]) -> bool {
        for position in positions {
            if !self.has(*position) {
                return false;
            }
        }
        true
    }
}
