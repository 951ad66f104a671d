//! A colouring with its key, which is kept up to date as points change. It serves as a board in play, as a position that is looked
//! up, and as an element of a history.

ghost use Rattle.std.specs.Prelude.{◌≡◌, ◌*◌, ◌<◌, replicate, slice_set};
ghost use Rattle.go_points.specs.declared.Cell.TheVariants.{Empty};
ghost use Rattle.go_points.specs.Grid.{cell_at, side_of, IsColouring};
ghost use Rattle.go_points.specs.Place.{IsOn, number_of};
ghost use Rattle.stone_key.specs.Key.{key_of};

use crate::key::{cell_word, key_of};
use go_points::{Cell, Colouring, MAX_POINTS, Point, Size};
use std::hash::{Hash, Hasher};
use std::marker::Model;

/// A colouring with its key: equal by the colouring, hashed by the key.
#[derive(Clone, Copy, Debug)]
pub struct KeyedColouring {
    colouring: Colouring,
    key: u64,
}

impl Model for KeyedColouring {
    ghost use Rattle.std.specs.Prelude.{◌≡◌, List};
    ghost use Rattle.std.proofs.Common.{sym};
    ghost use Rattle.go_points.specs.declared.Cell.{Cell};
    ghost use Rattle.stone_key.specs.Key.{key_of};

    ghost Value = { List Cell };

    ghost view = { λ a. a.colouring };

    ghost invariant = { λ a. a.key ≡ key_of a.colouring };

    ghost inverse = { λ c. record { colouring = c; key = key_of c } };

    ghost inverse_ok = { λ a h. λ i. record { colouring = a.colouring; key = sym h i } };
}

impl PartialEq for KeyedColouring {
    ghost use Rattle.go_points.specs.Grid.{same_cells};
    ghost use Rattle.go_points.specs.Equal.{same_cells_equiv};
    ghost use Rattle.std.specs.Cmp.{partial_equiv_from_equiv};

    ghost eq = { same_cells };

    ghost laws = { partial_equiv_from_equiv same_cells_equiv };

    fn eq(&self, other: &KeyedColouring) -> bool {
        self.colouring == other.colouring
    }
}

impl Eq for KeyedColouring {
    ghost use Rattle.go_points.specs.Equal.{same_cells_equiv};

    ghost laws = { same_cells_equiv };
}

impl Hash for KeyedColouring {
    ghost use Rattle.std.specs.Hash as fed;
    ghost use Rattle.std.proofs.Common.{ap};
    ghost use Rattle.go_points.specs.Equal.{same_cells_eq};
    ghost use Rattle.stone_key.specs.Key.{key_of};

    ghost hash_input = { λ c. fed.u64 (key_of c) };

    ghost respects_eq = { λ x y e. ap (λ c. fed.u64 (key_of c)) (same_cells_eq x y e) };

    fn hash<H: Hasher>(&self, state: &mut H) {
        self.key.hash(state);
    }
}

impl KeyedColouring {
    /// The colouring with its key, in time linear in the number of points.
    pub fn of(colouring: &Colouring) -> KeyedColouring
        ensures { result ≡ colouring.now }
    {
        KeyedColouring {
            colouring: *colouring,
            key: key_of(colouring),
        }
    }

    /// Like `of`, for a caller that already knows the key.
    pub fn with_key(colouring: Colouring, key: u64) -> KeyedColouring
        requires { key ≡ key_of colouring }
        ensures { result ≡ colouring }
    {
        KeyedColouring { colouring, key }
    }

    /// The colouring without stones.
    pub fn empty(size: Size) -> KeyedColouring
        ensures value { result ≡ replicate (size * size) Empty }
        ensures size { side_of result ≡ size }
    {
        KeyedColouring {
            colouring: Colouring::empty(size),
            key: 0,
        }
    }

    /// The size of the board.
    pub fn size(&self) -> Size
        ensures value { result ≡ side_of self.now }
        ensures colouring { IsColouring (side_of self.now) self.now }
    {
        self.colouring.size()
    }

    /// What the point holds.
    pub fn get(&self, point: Point) -> Cell
        requires { IsOn (side_of self.now) point }
        ensures value { result ≡ cell_at self.now (number_of (side_of self.now) point) }
        ensures colouring { IsColouring (side_of self.now) self.now }
    {
        self.colouring.get(point)
    }

    /// Makes the point hold `cell`. The word of what it held leaves the key, and the word of the cell enters it.
    pub fn set(&mut self, point: Point, cell: Cell)
        requires { IsOn (side_of self.old) point }
        ensures value { self.new ≡ slice_set self.old (number_of (side_of self.old) point) cell }
        ensures size { side_of self.new ≡ side_of self.old }
    {
        let size = self.colouring.size();
        prove!(size.area() <= MAX_POINTS);
        let number = point.number(size);
        let before = self.colouring.get(point);
        self.key = self.key ^ cell_word(number, before) ^ cell_word(number, cell);
        self.colouring.set(point, cell);
    }

    /// What the point of this number holds.
    pub fn at(&self, number: usize) -> Cell
        requires { number < side_of self.now * side_of self.now }
        ensures { result ≡ cell_at self.now number }
    {
        self.colouring.cell(number)
    }

    pub fn colouring(&self) -> &Colouring
        ensures { result.now ≡ self.now }
    {
        &self.colouring
    }

    /// The exclusive or of the words of the stones.
    pub fn key(&self) -> u64
        ensures { result ≡ key_of self.now }
    {
        self.key
    }
}
