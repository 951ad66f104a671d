//! Lists of fingerprints, ascending and each once. A list that is equal to one that was added lately is not kept again: of the
//! conditions of proofs most are.

use crate::proof::Span;
use crate::proofs::{number_of, part};
use std::alloc::{AllocError, Global};

/// Among how many of the latest lists an equal one is looked for, at first and at most: powers of two.
const FEW: usize = 1_024;

const MANY: usize = 131_072;

/// The lists, one after the other.
#[derive(Drop)]
pub(crate) struct Lists {
    fingerprints: Vec<u32>,
    /// The latest list for each number that lists are mixed to. Lists may share a number, so each is compared.
    latest: Vec<Span>,
    count: usize,
}

impl Lists {
    pub(crate) fn new(alloc: Global) -> Lists {
        Lists {
            fingerprints: Vec::new(alloc),
            latest: Vec::new(alloc),
            count: 0,
        }
    }

    pub(crate) fn get(&self, list: Span) -> &[u32] {
        part(self.fingerprints.as_slice(), list)
    }

    /// Whether the fingerprint is in the list.
    pub(crate) fn has(&self, list: Span, fingerprint: u32) -> bool {
        self.get(list).binary_search(&fingerprint).is_ok()
    }

    /// Adds the list, unless an equal one is found, and returns where it is.
    pub(crate) fn add(&mut self, list: &[u32]) -> Result<Span, AllocError> {
        if list.is_empty() {
            return Ok(Span::none());
        }
        self.make_room()?;
        let slot = mixed(list) as usize & self.latest.len().saturating_sub(1);
        if let Some(known) = self.latest.get(slot).copied() {
            if self.get(known) == list {
                return Ok(known);
            }
        }
        let from = number_of(self.fingerprints.len())?;
        self.fingerprints.extend_from_slice(list)?;
        let to = number_of(self.fingerprints.len())?;
        let added = Span { from, to };
        if slot < self.latest.len() {
            self.latest[slot] = added;
        }
        self.count = self.count.saturating_add(1);
        Ok(added)
    }

    /// Makes room for twice as many lists if there is none. Then no older list is found any more.
    fn make_room(&mut self) -> Result<(), AllocError> {
        if self.count < self.latest.len() || self.latest.len() >= MANY {
            return Ok(());
        }
        let room = self.latest.len().saturating_mul(2).max(FEW);
        self.latest.clear();
        self.latest.resize(room, Span::none())
    }
}

/// A number for the list, that of a set: the exclusive or of its fingerprints, which are well mixed.
fn mixed(list: &[u32]) -> u32 {
    let mut number = 0;
    for fingerprint in list {
        number ^= *fingerprint;
    }
    number
}
