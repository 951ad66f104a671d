//! The latest answers to a question.

use std::alloc::Global;

/// For how many answers there is room at first, and at most: powers of two.
const FEW: usize = 512;

const MANY: usize = 32_768;

/// Answers by key. The key of an entry is all that its answer depends on, not a hash of it, so an entry is either right or not used:
/// no answer depends on what is kept.
#[derive(Drop)]
pub(crate) struct Latest<K, V> {
    entries: Vec<Option<(K, V)>>,
    /// The highest byte of each entry's number. All of them fit a fast cache, and they tell most keys that are not kept.
    tags: Vec<u8>,
    /// How many answers were added since the room was last made larger.
    added: usize,
}

impl<K: Copy + PartialEq, V: Copy> Latest<K, V> {
    /// No answers.
    pub(crate) fn new(alloc: Global) -> Latest<K, V> {
        Latest {
            entries: Vec::new(alloc),
            tags: Vec::new(alloc),
            added: 0,
        }
    }

    /// The answer for the key, if it is kept. Equal keys are mixed to the same number.
    pub(crate) fn find(&self, mixed: u64, key: K) -> Option<V> {
        let slot = self.slot(mixed);
        if self.tags.get(slot).copied() != Some(tag_of(mixed)) {
            return None;
        }
        match self.entries.get(slot).copied() {
            Some(Some((known, answer))) if known == key => Some(answer),
            _ => None,
        }
    }

    /// The place of the number's entry.
    fn slot(&self, mixed: u64) -> usize {
        mixed as usize & self.tags.len().saturating_sub(1)
    }

    /// Keeps the answer, in place of another one.
    pub(crate) fn add(&mut self, mixed: u64, key: K, answer: V) {
        self.make_room();
        let slot = self.slot(mixed);
        if slot < self.entries.len() && slot < self.tags.len() {
            self.entries[slot] = Some((key, answer));
            self.tags[slot] = tag_of(mixed);
        }
    }

    /// Makes room for four times as many answers when as many were added as there was room for. Then most older ones are no longer
    /// found. If memory is refused, the room stays as it is.
    fn make_room(&mut self) {
        let room = self.entries.len();
        if self.added < room || room >= MANY {
            self.added = self.added.saturating_add(1);
            return;
        }
        self.added = 0;
        let more = room.saturating_mul(4).max(FEW);
        if self.entries.resize(more, None).is_ok() {
            let _made = self.tags.resize(more, 0);
        }
    }
}

// The byte of the number that is kept beside its entry.
fn tag_of(mixed: u64) -> u8 {
    (mixed >> 56) as u8
}
