//! A set of lemmas that forgets them all at once.

ghost use Rattle.std.specs.Prelude.{◌≡◌, ◌<◌, ◌^◌, ◌++◌, ◌∷◌, [], IsTrue, OnErr, OnOk, length};
ghost use Rattle.std.specs.List.{Contains};
ghost use Rattle.cert_check.specs.Private.Places.{KeepsAll};

use std::alloc::{AllocError, Global};
use std::marker::Model;

/// Numbers of lemmas, the latest last: those whose lists are known to be contained in the present lemma's list. A claim may use one
/// lemma thousands of times in a body, with a list of many thousand colourings, so each lemma is compared once. A number is held if
/// `numbers` has it at the place that `places` gives for it. What `places` gives for other numbers does not matter, and is left as
/// it is when a body ends.
#[derive(Drop)]
pub(crate) struct LemmaSet {
    numbers: Vec<u32>,
    places: Vec<usize>,
}

impl Model for LemmaSet {
    ghost use Rattle.std.specs.Prelude.{ℕ, List};

    ghost Value = { List ℕ };

    ghost view = { λ a. a.numbers.items };

    ghost use Rattle.cert_check.specs.Private.Places.{ArePlaced};

    ghost invariant = { λ a. ArePlaced a.numbers.items a.places.items };
}

impl LemmaSet {
    /// The set without lemmas. It allocates no memory.
    pub(crate) fn new(alloc: Global) -> LemmaSet
        ensures { result ≡ [] }
    {
        LemmaSet {
            numbers: Vec::new(alloc),
            places: Vec::new(alloc),
        }
    }

    /// Forgets them all.
    pub(crate) fn clear(&mut self)
        ensures { self.new ≡ [] }
    {
        self.numbers.clear();
    }

    /// Whether the lemma of this number is held.
    pub(crate) fn holds(&self, number: u32) -> bool
        ensures sound { IsTrue result → Contains self.now number }
        ensures complete { Contains self.now number → IsTrue result }
    {
        let Some(place) = self.places.get(number as usize) else {
            return false;
        };
        let Some(found) = self.numbers.get(*place) else {
            return false;
        };
        *found == number
    }

    /// Adds the lemma with this number.
    pub(crate) fn insert(&mut self, number: u32) -> Result<(), AllocError>
        ensures ok { OnOk result (self.new ≡ self.old ++ number ∷ []) }
        ensures err { OnErr result (self.new ≡ self.old) }
    {
        let index = number as usize;
        make_room(&mut self.places, index)?;
        let place = self.numbers.len();
        self.numbers.push(number)?;
        self.places[index] = place;
        Ok(())
    }
}

/// Makes the list long enough to have this index.
fn make_room(places: &mut Vec<usize>, index: usize) -> Result<(), AllocError>
    requires { index < 2 ^ 32 }
    ensures room { OnOk result (index < length places.new.items) }
    ensures kept { KeepsAll places.old.items places.new.items }
{
    if index < places.len() {
        return Ok(());
    }
    places.resize(index + 1, 0)
}
