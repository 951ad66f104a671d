//! Sets of places.
//!
//! A place is a number below `most`, which the kind of set decides: what takes a kind of set as its parameter serves boards of any
//! width, and a board with few places pays for few.

/// A set of places.
pub trait PlaceSet: Copy + PartialEq {
    /// How many places there can be.
    fn most() -> usize;

    /// The set without places.
    fn empty() -> Self;

    /// The set with this place. A place that does not exist changes nothing.
    fn with(self, place: usize) -> Self;

    /// Whether the place is in the set.
    fn has(self, place: usize) -> bool;

    fn is_empty(self) -> bool;

    /// The places of both.
    fn and(self, other: Self) -> Self;

    /// The places of one or the other.
    fn or(self, other: Self) -> Self;

    /// The places that are not in the other.
    fn minus(self, other: Self) -> Self;

    /// The places that are in exactly one of the two sets.
    fn difference(self, other: Self) -> Self;

    /// Whether a place is in both.
    fn meets(self, other: Self) -> bool;

    /// Whether all places are in the other.
    fn is_within(self, other: Self) -> bool;

    /// How many places it has.
    fn len(self) -> u32;

    /// Whether it has two places or more.
    fn has_several(self) -> bool;

    /// The least place.
    fn first(self) -> Option<usize>;

    /// The set with only the least place.
    fn lowest(self) -> Self;

    /// Removes the least place, and returns it.
    fn take_first(&mut self) -> Option<usize>;

    /// A number that is well mixed. Equal sets have the same number.
    fn mixed(self) -> u64;

    /// The set of the two least places, or of fewer if it has fewer.
    fn lowest_two(self) -> Self {
        let one = self.lowest();
        one.or(self.minus(one).lowest())
    }

    /// Its places, ascending.
    fn places(self) -> Places<Self> {
        Places {
            left: self,
            most: Self::most(),
        }
    }
}

/// The places of a set that are still to come, ascending.
#[derive(Clone, Copy)]
pub struct Places<S> {
    left: S,
    /// No more places than this are left.
    most: usize,
}

impl<S: PlaceSet> Iterator for Places<S> {
    type Item = usize;

    ghost use Rattle.std.specs.Iterator.{at_most};

    ghost remaining = { λ s. at_most s.most };

    fn next(&mut self) -> Option<usize> {
        if self.most == 0 {
            return None;
        }
        self.most -= 1;
        self.left.take_first()
    }
}

/// The word with only its lowest bit, and the word without it.
pub(crate) fn lowest_bit(word: u64) -> u64 {
    word & word.wrapping_neg()
}

pub(crate) fn without_lowest(word: u64) -> u64 {
    word & word.wrapping_sub(1)
}
