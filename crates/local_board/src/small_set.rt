//! Sets of at most 128 places.
//!
//! They are two words, not one of 128 bits: most problems have at most 64 places, and then the second word is empty and nothing is
//! looked for in it.

use crate::place_set::{PlaceSet, lowest_bit, without_lowest};

/// How many places there can be.
pub const MAX_SMALL: usize = 128;

/// A set of places below `MAX_SMALL`.
#[derive(Clone, Copy, Debug, PartialEq, Eq)]
pub struct SmallSet {
    /// The places below 64, and those from it on.
    low: u64,
    high: u64,
}

impl PlaceSet for SmallSet {
    fn most() -> usize {
        MAX_SMALL
    }

    fn empty() -> SmallSet {
        SmallSet { low: 0, high: 0 }
    }

    fn with(self, place: usize) -> SmallSet {
        if place < 64 {
            return SmallSet {
                low: self.low | 1 << place,
                high: self.high,
            };
        }
        SmallSet {
            low: self.low,
            high: self.high | high_bit(place),
        }
    }

    fn has(self, place: usize) -> bool {
        if place < 64 {
            return self.low >> place & 1 != 0;
        }
        self.high & high_bit(place) != 0
    }

    fn is_empty(self) -> bool {
        self.low | self.high == 0
    }

    fn and(self, other: SmallSet) -> SmallSet {
        SmallSet {
            low: self.low & other.low,
            high: self.high & other.high,
        }
    }

    fn or(self, other: SmallSet) -> SmallSet {
        SmallSet {
            low: self.low | other.low,
            high: self.high | other.high,
        }
    }

    fn minus(self, other: SmallSet) -> SmallSet {
        SmallSet {
            low: self.low & !other.low,
            high: self.high & !other.high,
        }
    }

    fn difference(self, other: SmallSet) -> SmallSet {
        SmallSet {
            low: self.low ^ other.low,
            high: self.high ^ other.high,
        }
    }

    fn meets(self, other: SmallSet) -> bool {
        self.low & other.low | self.high & other.high != 0
    }

    fn is_within(self, other: SmallSet) -> bool {
        self.low & !other.low | self.high & !other.high == 0
    }

    fn len(self) -> u32 {
        if self.high == 0 {
            return self.low.count_ones();
        }
        self.low.count_ones() + self.high.count_ones()
    }

    fn has_several(self) -> bool {
        if self.low == 0 {
            return without_lowest(self.high) != 0;
        }
        without_lowest(self.low) | self.high != 0
    }

    fn first(self) -> Option<usize> {
        let mut set = self;
        set.take_first()
    }

    fn lowest(self) -> SmallSet {
        let low = lowest_bit(self.low);
        SmallSet {
            low,
            high: if low == 0 { lowest_bit(self.high) } else { 0 },
        }
    }

    fn take_first(&mut self) -> Option<usize> {
        if self.low != 0 {
            let place = self.low.trailing_zeros() as usize;
            self.low = without_lowest(self.low);
            return Some(place);
        }
        if self.high != 0 {
            let place = self.high.trailing_zeros() as usize;
            self.high = without_lowest(self.high);
            return Some(64 + place);
        }
        None
    }

    fn mixed(self) -> u64 {
        let mixed = self.low.wrapping_mul(0x9e37_79b9_7f4a_7c15)
            ^ self.high.wrapping_mul(0xc2b2_ae3d_27d4_eb4f);
        mixed >> 32 ^ mixed
    }
}

/// The bit of a place in the second word; 0 if there is no such place.
fn high_bit(place: usize) -> u64 {
    if place < 64 || place >= MAX_SMALL {
        return 0;
    }
    1 << (place - 64)
}
