//! Marks of positions: one look at a word tells of most positions that they are not in a list, before the list is searched.

use std::alloc::{AllocError, Global};

/// For how many positions there is room in a word.
const IN_A_WORD: usize = 8;

/// Two bits of a word for each position that was marked, found by its key. Positions may share them.
#[derive(Drop)]
pub struct Marks {
    words: Vec<u64>,
}

impl Marks {
    /// Marks without room, by which any position may be marked.
    pub fn new(alloc: Global) -> Marks {
        Marks {
            words: Vec::new(alloc),
        }
    }

    /// For how many positions there is room: then some four of a hundred that are not marked share the bits of those that are.
    pub fn room(&self) -> usize {
        self.words.len().saturating_mul(IN_A_WORD)
    }

    /// Removes all marks, and makes room for this many positions.
    pub fn make_room(&mut self, positions: usize) -> Result<(), AllocError> {
        self.words.clear();
        self.words
            .resize((positions / IN_A_WORD).next_power_of_two(), 0)
    }

    /// Removes all marks. The room stays.
    pub fn clear(&mut self) {
        self.words.fill(0);
    }

    /// Whether the position may be marked.
    pub fn may_have(&self, position: u64) -> bool {
        match self.words.get(self.place(position)) {
            Some(word) => *word & bits_of(position) == bits_of(position),
            None => true,
        }
    }

    /// Marks the position, and returns whether a bit was set for it: then it had not been marked.
    pub fn mark(&mut self, position: u64) -> bool {
        let place = self.place(position);
        if place >= self.words.len() {
            return false;
        }
        let before = self.words[place];
        let after = before | bits_of(position);
        self.words[place] = after;
        after != before
    }

    // The place of the word with the position's bits. The number of words is a power of two.
    fn place(&self, position: u64) -> usize {
        (position / 64) as usize & self.words.len().saturating_sub(1)
    }
}

// The bits of the position in its word.
fn bits_of(position: u64) -> u64 {
    1 << (position % 64) | 1 << ((position >> 32) % 64)
}
