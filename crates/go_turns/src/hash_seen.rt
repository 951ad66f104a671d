//! The colourings that have occurred, found by their keys. Asking for one takes the time of one look-up, however many there are.
//!
//! Most questions are about a colouring that has not occurred. So keys fall into buckets, and for each bucket a place is kept before
//! which none of its colourings stands. Where that place is not below the length, the bucket is empty and needs no look-up. Such a
//! place stays right when the last colouring is removed, so nothing has to be counted.

ghost use Rattle.std.specs.Prelude.{◌≡◌, ◌<◌, ◌≤◌, ◌%◌, ℕ, length, replicate, slice_index};
ghost use Rattle.go_turns.specs.History.{repeats};
ghost use Rattle.go_turns.specs.Private.Buckets.{bucket_count};

use crate::seen::Seen;
use go_points::Colouring;
use indexmap::IndexSet;
use std::alloc::{AllocError, Global};
use std::marker::Model;
use stone_key::{KeyedColouring, key_of};

/// The number of buckets.
const BUCKETS: usize = 512;

/// The place that is kept for an empty bucket. A longer list looks each colouring up.
const NO_PLACE: u16 = u16::MAX;

/// The colourings in a set that keeps their order. Colourings of one key are still told apart.
#[derive(Drop)]
pub struct HashSeen {
    entries: IndexSet<KeyedColouring>,
    least_places: [u16; BUCKETS],
}

impl Model for HashSeen {
    ghost use Rattle.std.specs.Prelude.{List, IsFalse};
    ghost use Rattle.go_points.specs.declared.Cell.{Cell};
    ghost use Rattle.go_turns.specs.History.{repeats};
    ghost use Rattle.go_turns.specs.Private.Buckets.{NoneBefore};

    ghost Value = { List (List Cell) };

    ghost view = { λ s. s.entries.keys };

    ghost invariant = { λ s. record {
      once : IsFalse (repeats s.entries.keys);
      places : NoneBefore s.entries.keys s.least_places;
    } };
}

// The bucket of a key.
fn bucket_of(key: u64) -> usize
    ensures value { result ≡ key % bucket_count }
    ensures within { result < bucket_count }
{
    (key % BUCKETS as u64) as usize
}

// Lowers the place that is kept for the bucket to this one, if it is greater.
fn lower_place(places: &mut [u16; BUCKETS], bucket: usize, place: usize)
    requires { bucket < bucket_count }
    ensures full { length places.new ≡ length places.old }
    ensures own { slice_index places.new bucket ≤ place }
    ensures lower { (b : ℕ) → slice_index places.new b ≤ slice_index places.old b }
{
    if places[bucket] as usize <= place {
        return;
    }
    places[bucket] = place as u16;
}

fn no_places() -> [u16; BUCKETS]
    ensures { result ≡ replicate bucket_count 65535 }
{
    [NO_PLACE; BUCKETS]
}

impl Seen for HashSeen {
    ghost content = { λ s. s };

    fn new(alloc: Global) -> HashSeen {
        HashSeen {
            entries: IndexSet::new(alloc),
            least_places: no_places(),
        }
    }

    fn holds(&self, colouring: &Colouring) -> Option<usize> {
        self.holds_with(colouring, key_of(colouring))
    }

    fn holds_with(&self, colouring: &Colouring, key: u64) -> Option<usize> {
        if !self.may_hold(key) {
            return None;
        }
        self.entries
            .get_index_of(&KeyedColouring::with_key(*colouring, key))
    }

    fn may_hold(&self, key: u64) -> bool {
        (self.least_places[bucket_of(key)] as usize) < self.entries.len()
    }

    fn at(&self, place: usize) -> &Colouring {
        self.entries.as_slice()[place].colouring()
    }

    fn len(&self) -> usize {
        self.entries.len()
    }

    fn add(&mut self, colouring: Colouring) -> Result<(), AllocError> {
        let key = key_of(&colouring);
        self.add_with(colouring, key)
    }

    fn add_with(&mut self, colouring: Colouring, key: u64) -> Result<(), AllocError> {
        let place = self.entries.len();
        lower_place(&mut self.least_places, bucket_of(key), place);
        self.entries
            .insert(KeyedColouring::with_key(colouring, key))?;
        Ok(())
    }

    fn add_new(&mut self, colouring: Colouring, key: u64) -> Result<Option<usize>, AllocError> {
        let place = self.entries.len();
        lower_place(&mut self.least_places, bucket_of(key), place);
        let entry = KeyedColouring::with_key(colouring, key);
        let Ok((found, is_new)) = self.entries.insert_full(entry) else {
            return Err(AllocError);
        };
        if !is_new {
            return Ok(Some(found));
        }
        Ok(None)
    }

    fn take_last(&mut self) {
        let Some(last) = self.entries.pop() else {
            return;
        };
        let bucket = bucket_of(last.key());
        if self.least_places[bucket] as usize == self.entries.len() {
            self.least_places[bucket] = NO_PLACE;
        }
    }
}
