//! Sets of places on a board of any size.

use crate::place_set::PlaceSet;
use crate::small_set::{MAX_SMALL, SmallSet};
use go_points::MAX_POINTS;

/// An odd number by which what was mixed before is multiplied.
const FACTOR: u64 = 0x9e37_79b9_7f4a_7c15;

/// A set of places, as many as a board can have points. It has no array: the words of one are copied again and again.
#[derive(Clone, Copy, Debug, PartialEq, Eq)]
pub struct LargeSet {
    /// The first 128 places, the next 128 and so on.
    below_128: SmallSet,
    below_256: SmallSet,
    below_384: SmallSet,
    below_512: SmallSet,
    below_640: SmallSet,
}

impl PlaceSet for LargeSet {
    fn most() -> usize {
        MAX_POINTS
    }

    fn empty() -> LargeSet {
        LargeSet {
            below_128: SmallSet::empty(),
            below_256: SmallSet::empty(),
            below_384: SmallSet::empty(),
            below_512: SmallSet::empty(),
            below_640: SmallSet::empty(),
        }
    }

    fn with(self, place: usize) -> LargeSet {
        let mut set = self;
        let rest = place % MAX_SMALL;
        match place / MAX_SMALL {
            0 => set.below_128 = set.below_128.with(rest),
            1 => set.below_256 = set.below_256.with(rest),
            2 => set.below_384 = set.below_384.with(rest),
            3 => set.below_512 = set.below_512.with(rest),
            4 => set.below_640 = set.below_640.with(rest),
            _ => {}
        }
        set
    }

    fn has(self, place: usize) -> bool {
        let rest = place % MAX_SMALL;
        match place / MAX_SMALL {
            0 => self.below_128.has(rest),
            1 => self.below_256.has(rest),
            2 => self.below_384.has(rest),
            3 => self.below_512.has(rest),
            4 => self.below_640.has(rest),
            _ => false,
        }
    }

    fn is_empty(self) -> bool {
        self.below_128.is_empty()
            && self.below_256.is_empty()
            && self.below_384.is_empty()
            && self.below_512.is_empty()
            && self.below_640.is_empty()
    }

    fn and(self, other: LargeSet) -> LargeSet {
        LargeSet {
            below_128: self.below_128.and(other.below_128),
            below_256: self.below_256.and(other.below_256),
            below_384: self.below_384.and(other.below_384),
            below_512: self.below_512.and(other.below_512),
            below_640: self.below_640.and(other.below_640),
        }
    }

    fn or(self, other: LargeSet) -> LargeSet {
        LargeSet {
            below_128: self.below_128.or(other.below_128),
            below_256: self.below_256.or(other.below_256),
            below_384: self.below_384.or(other.below_384),
            below_512: self.below_512.or(other.below_512),
            below_640: self.below_640.or(other.below_640),
        }
    }

    fn minus(self, other: LargeSet) -> LargeSet {
        LargeSet {
            below_128: self.below_128.minus(other.below_128),
            below_256: self.below_256.minus(other.below_256),
            below_384: self.below_384.minus(other.below_384),
            below_512: self.below_512.minus(other.below_512),
            below_640: self.below_640.minus(other.below_640),
        }
    }

    fn difference(self, other: LargeSet) -> LargeSet {
        LargeSet {
            below_128: self.below_128.difference(other.below_128),
            below_256: self.below_256.difference(other.below_256),
            below_384: self.below_384.difference(other.below_384),
            below_512: self.below_512.difference(other.below_512),
            below_640: self.below_640.difference(other.below_640),
        }
    }

    fn meets(self, other: LargeSet) -> bool {
        self.below_128.meets(other.below_128)
            || self.below_256.meets(other.below_256)
            || self.below_384.meets(other.below_384)
            || self.below_512.meets(other.below_512)
            || self.below_640.meets(other.below_640)
    }

    fn is_within(self, other: LargeSet) -> bool {
        self.below_128.is_within(other.below_128)
            && self.below_256.is_within(other.below_256)
            && self.below_384.is_within(other.below_384)
            && self.below_512.is_within(other.below_512)
            && self.below_640.is_within(other.below_640)
    }

    fn len(self) -> u32 {
        self.below_128
            .len()
            .saturating_add(self.below_256.len())
            .saturating_add(self.below_384.len())
            .saturating_add(self.below_512.len())
            .saturating_add(self.below_640.len())
    }

    fn has_several(self) -> bool {
        let mut rest = self;
        rest.take_first().is_some() && !rest.is_empty()
    }

    fn first(self) -> Option<usize> {
        let mut set = self;
        set.take_first()
    }

    fn lowest(self) -> LargeSet {
        match self.first() {
            Some(place) => LargeSet::empty().with(place),
            None => self,
        }
    }

    fn take_first(&mut self) -> Option<usize> {
        if let Some(place) = self.below_128.take_first() {
            return Some(place);
        }
        if let Some(place) = self.below_256.take_first() {
            return Some(place.saturating_add(MAX_SMALL));
        }
        if let Some(place) = self.below_384.take_first() {
            return Some(place.saturating_add(2 * MAX_SMALL));
        }
        if let Some(place) = self.below_512.take_first() {
            return Some(place.saturating_add(3 * MAX_SMALL));
        }
        match self.below_640.take_first() {
            Some(place) => Some(place.saturating_add(4 * MAX_SMALL)),
            None => None,
        }
    }

    fn mixed(self) -> u64 {
        let mut mixed = self.below_128.mixed();
        mixed = mixed.wrapping_mul(FACTOR) ^ self.below_256.mixed();
        mixed = mixed.wrapping_mul(FACTOR) ^ self.below_384.mixed();
        mixed = mixed.wrapping_mul(FACTOR) ^ self.below_512.mixed();
        mixed = mixed.wrapping_mul(FACTOR) ^ self.below_640.mixed();
        mixed >> 32 ^ mixed
    }
}
