//! Sets of places, as bits.
//!
//! They are two words, not one of 128 bits: most regions have at most 64 places, and then the second word is empty and nothing is
//! looked for in it.

/// How many places there can be.
pub const MAX_PLACES: usize = 128;

/// A set of places, which are numbers below `MAX_PLACES`.
#[derive(Clone, Copy, Debug, PartialEq, Eq, Hash)]
pub struct PlaceSet {
    /// The places below 64, and those from it on.
    low: u64,
    high: u64,
}

impl PlaceSet {
    /// The set without places.
    pub fn empty() -> PlaceSet {
        PlaceSet { low: 0, high: 0 }
    }

    /// The set with this place alone. A place that does not exist gives the empty set.
    pub fn of(place: usize) -> PlaceSet {
        if place < 64 {
            return PlaceSet {
                low: 1 << place,
                high: 0,
            };
        }
        PlaceSet {
            low: 0,
            high: high_bit(place),
        }
    }

    /// The set with this place. A place that does not exist changes nothing.
    pub fn with(self, place: usize) -> PlaceSet {
        self.or(PlaceSet::of(place))
    }

    /// Whether the place is in the set.
    pub fn has(self, place: usize) -> bool {
        self.meets(PlaceSet::of(place))
    }

    pub fn is_empty(self) -> bool {
        self.low | self.high == 0
    }

    /// The places of both.
    pub fn and(self, other: PlaceSet) -> PlaceSet {
        PlaceSet {
            low: self.low & other.low,
            high: self.high & other.high,
        }
    }

    /// The places of one or the other.
    pub fn or(self, other: PlaceSet) -> PlaceSet {
        PlaceSet {
            low: self.low | other.low,
            high: self.high | other.high,
        }
    }

    /// The places that are not in the other.
    pub fn minus(self, other: PlaceSet) -> PlaceSet {
        PlaceSet {
            low: self.low & !other.low,
            high: self.high & !other.high,
        }
    }

    /// Whether a place is in both.
    pub fn meets(self, other: PlaceSet) -> bool {
        self.low & other.low | self.high & other.high != 0
    }

    /// Whether all places are in the other.
    pub fn is_within(self, other: PlaceSet) -> bool {
        self.low & !other.low | self.high & !other.high == 0
    }

    /// How many places it has.
    pub fn len(self) -> u32 {
        if self.high == 0 {
            return self.low.count_ones();
        }
        self.low.count_ones() + self.high.count_ones()
    }

    /// Whether it has two places or more.
    pub fn has_several(self) -> bool {
        if self.low == 0 {
            return without_lowest(self.high) != 0;
        }
        without_lowest(self.low) | self.high != 0
    }

    /// The set with only the least place.
    pub fn lowest(self) -> PlaceSet {
        let low = self.low & self.low.wrapping_neg();
        PlaceSet {
            low,
            high: if low == 0 {
                self.high & self.high.wrapping_neg()
            } else {
                0
            },
        }
    }

    /// Takes the least place out of the set.
    pub fn take(&mut self) -> Option<usize> {
        if self.low != 0 {
            let place = self.low.trailing_zeros() as usize;
            self.low = without_lowest(self.low);
            return Some(place);
        }
        if self.high != 0 {
            let place = self.high.trailing_zeros() as usize;
            self.high = without_lowest(self.high);
            return Some(64 + place);
        }
        None
    }
}

/// The bit of a place in the second word; 0 if there is no such place.
fn high_bit(place: usize) -> u64 {
    if place < 64 || place >= MAX_PLACES {
        return 0;
    }
    1 << (place - 64)
}

/// The word without its lowest bit.
fn without_lowest(word: u64) -> u64 {
    word & word.wrapping_sub(1)
}
