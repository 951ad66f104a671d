//! Sets of numbers, as bits: the points of a board, or its chains.

use go_points::MAX_POINTS;

/// The number of words.
const WORDS: usize = (MAX_POINTS + 63) / 64;

/// A set of numbers below `MAX_POINTS`. No call allocates memory.
#[derive(Clone, Copy, Debug, PartialEq, Eq, Hash)]
pub struct NumberSet {
    words: [u64; WORDS],
}

/// The numbers of a set that are still to come, ascending.
#[derive(Clone, Copy, Debug)]
pub struct Numbers {
    words: [u64; WORDS],
    /// No word before this one has a number left.
    word: usize,
    /// No more numbers than this are left.
    most: usize,
}

impl Iterator for Numbers {
    type Item = usize;

    ghost use Rattle.std.specs.Iterator.{at_most};

    ghost remaining = { λ s. at_most s.most };

    fn next(&mut self) -> Option<usize> {
        if self.most == 0 {
            return None;
        }
        self.most -= 1;
        let index = first_word(&self.words, self.word);
        if index >= WORDS {
            return None;
        }
        let bits = self.words[index];
        self.word = index;
        self.words[index] = bits & bits.wrapping_sub(1);
        Some(index * 64 + bits.trailing_zeros() as usize)
    }
}

/// The first word from this one on that has a number, or `WORDS`.
fn first_word(words: &[u64; WORDS], from: usize) -> usize {
    for index in from..WORDS {
        if words[index] != 0 {
            return index;
        }
    }
    WORDS
}

impl NumberSet {
    /// The set without numbers.
    pub fn empty() -> NumberSet {
        NumberSet { words: [0; WORDS] }
    }

    /// The numbers below this one.
    pub fn below(end: usize) -> NumberSet {
        let mut set = NumberSet::empty();
        for number in 0..end {
            set.insert(number);
        }
        set
    }

    /// The set with this number alone.
    pub fn of(number: usize) -> NumberSet {
        let mut set = NumberSet::empty();
        set.insert(number);
        set
    }

    /// Adds the number. One that no set can have changes nothing.
    pub fn insert(&mut self, number: usize) {
        if number < MAX_POINTS {
            self.words[number / 64] |= 1 << (number % 64);
        }
    }

    pub fn remove(&mut self, number: usize) {
        if number < MAX_POINTS {
            self.words[number / 64] &= !(1 << (number % 64));
        }
    }

    pub fn has(&self, number: usize) -> bool {
        number < MAX_POINTS && self.words[number / 64] >> (number % 64) & 1 != 0
    }

    pub fn is_empty(&self) -> bool {
        self.words == [0; WORDS]
    }

    /// How many numbers it has.
    pub fn len(&self) -> usize {
        let mut count: usize = 0;
        for index in 0..WORDS {
            count = count.saturating_add(self.words[index].count_ones() as usize);
        }
        count
    }

    /// How many of its numbers are below this one.
    pub fn rank(&self, number: usize) -> usize {
        let mut count: usize = 0;
        for index in 0..WORDS {
            let first = index * 64;
            let bits = self.words[index];
            if first + 64 <= number {
                count = count.saturating_add(bits.count_ones() as usize);
            } else if first < number {
                let front = bits & !(u64::MAX << (number - first));
                count = count.saturating_add(front.count_ones() as usize);
            }
        }
        count
    }

    /// The least number.
    pub fn first(&self) -> Option<usize> {
        self.iter().next()
    }

    /// Whether a number is in both.
    pub fn meets(&self, other: &NumberSet) -> bool {
        for index in 0..WORDS {
            if self.words[index] & other.words[index] != 0 {
                return true;
            }
        }
        false
    }

    /// Whether all its numbers are in the other.
    pub fn is_within(&self, other: &NumberSet) -> bool {
        for index in 0..WORDS {
            if self.words[index] & !other.words[index] != 0 {
                return false;
            }
        }
        true
    }

    /// The numbers of both.
    pub fn and(&self, other: &NumberSet) -> NumberSet {
        let mut set = NumberSet::empty();
        for index in 0..WORDS {
            set.words[index] = self.words[index] & other.words[index];
        }
        set
    }

    /// The numbers of one or the other.
    pub fn or(&self, other: &NumberSet) -> NumberSet {
        let mut set = NumberSet::empty();
        for index in 0..WORDS {
            set.words[index] = self.words[index] | other.words[index];
        }
        set
    }

    /// The numbers that are not in the other.
    pub fn minus(&self, other: &NumberSet) -> NumberSet {
        let mut set = NumberSet::empty();
        for index in 0..WORDS {
            set.words[index] = self.words[index] & !other.words[index];
        }
        set
    }

    /// Each number greater by `by`, which is at most 63. Those that no set can have are lost.
    pub(crate) fn raised(&self, by: u32) -> NumberSet {
        let mut set = NumberSet::empty();
        if by == 0 || by > 63 {
            return set;
        }
        let mut carried: u64 = 0;
        for index in 0..WORDS {
            let bits = self.words[index];
            set.words[index] = bits << by | carried;
            carried = bits >> (64 - by);
        }
        set
    }

    /// Each number less by `by`, which is at most 63, without those that would be below 0.
    pub(crate) fn lowered(&self, by: u32) -> NumberSet {
        let mut set = NumberSet::empty();
        if by == 0 || by > 63 {
            return set;
        }
        for index in 0..WORDS {
            let after = if index + 1 < WORDS {
                self.words[index + 1]
            } else {
                0
            };
            set.words[index] = self.words[index] >> by | after << (64 - by);
        }
        set
    }

    /// The numbers, ascending.
    pub fn iter(&self) -> Numbers {
        Numbers {
            words: self.words,
            word: 0,
            most: MAX_POINTS,
        }
    }
}
