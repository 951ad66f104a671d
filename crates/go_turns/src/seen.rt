//! The colourings that have occurred.

ghost use Rattle.std.specs.Prelude.{◌≡◌, ◌<◌, ◌-◌, ◌++◌, ◌∷◌, [], List, Some, None, IsFalse, IfOk, OnOk, OnErr, length, slice_get, take};
ghost use Rattle.go_points.specs.declared.Cell.{Cell};
ghost use Rattle.go_turns.specs.History.{place_in, repeats, IsJoined, HasNoneOf};
ghost use Rattle.stone_key.specs.Key.{key_of};

use go_points::Colouring;
use std::alloc::{AllocError, Global};

/// A list of colourings without repeats. Only `add`, `add_with` and `add_new` allocate memory.
pub trait Seen: Drop {
    /// The colourings, in the order in which they occurred.
    ghost content: { Self → List (List Cell) };

    /// The empty list.
    fn new(alloc: Global) -> Self
        ensures { content result ≡ [] };

    /// The place of the equal colouring, if there is one.
    fn holds(&self, colouring: &Colouring) -> Option<usize>
        ensures { result ≡ place_in (content self.now) colouring.now };

    /// Like `holds`, for a caller that already knows the key of the colouring.
    fn holds_with(&self, colouring: &Colouring, key: u64) -> Option<usize>
        requires { key ≡ key_of colouring.now }
        ensures { result ≡ place_in (content self.now) colouring.now };

    /// Whether a colouring with this key may be there. `false` means that there is none; `true` says nothing. It takes no look-up and
    /// needs no colouring, so it is cheaper than `holds_with`.
    fn may_hold(&self, key: u64) -> bool
        ensures { IsFalse result → HasNoneOf (content self.now) key };

    /// The colouring at this place.
    fn at(&self, place: usize) -> &Colouring
        requires { place < length (content self.now) }
        ensures { slice_get (content self.now) place ≡ Some result.now };

    /// How many colourings there are. Each occurs once.
    fn len(&self) -> usize
        ensures value { result ≡ length (content self.now) }
        ensures once { IsFalse (repeats (content self.now)) };

    /// Adds a colouring that is not held.
    fn add(&mut self, colouring: Colouring) -> Result<(), AllocError>
        requires { place_in (content self.old) colouring ≡ None }
        ensures ok { OnOk result (content self.new ≡ content self.old ++ colouring ∷ []) }
        ensures err { OnErr result (content self.new ≡ content self.old) };

    /// Like `add`, for a caller that already knows the key of the colouring.
    fn add_with(&mut self, colouring: Colouring, key: u64) -> Result<(), AllocError>
        requires key { key ≡ key_of colouring }
        requires fresh { place_in (content self.old) colouring ≡ None }
        ensures ok { OnOk result (content self.new ≡ content self.old ++ colouring ∷ []) }
        ensures err { OnErr result (content self.new ≡ content self.old) };

    /// Adds the colouring with one look-up if it is not held, and returns `None`; otherwise returns the place of the equal one.
    fn add_new(&mut self, colouring: Colouring, key: u64) -> Result<Option<usize>, AllocError>
        requires { key ≡ key_of colouring }
        ensures held { IfOk result (λ place. place ≡ place_in (content self.old) colouring) }
        ensures added { OnOk result
            (IsJoined (place_in (content self.old) colouring) (content self.old) colouring
            (content self.new)) }
        ensures new { OnErr result (place_in (content self.old) colouring ≡ None) }
        ensures err { OnErr result (content self.new ≡ content self.old) };

    /// Removes the last colouring.
    fn take_last(&mut self)
        requires { 0 < length (content self.old) }
        ensures { content self.new ≡ take (length (content self.old) - 1) (content self.old) };
}
