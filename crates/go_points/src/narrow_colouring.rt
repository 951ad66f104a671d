//! A colouring of at most 19 rows, in as many words as it needs.

ghost use Rattle.std.specs.Prelude.{◌≡◌, ◌≤◌, nat_le};
ghost use Rattle.go_points.specs.Grid.{same_cells, side_of};
ghost use Rattle.go_points.specs.declared.point_bits.TheConstants.{NARROW_SIZE};

use crate::colouring::Colouring;
use crate::point_bits::{NARROW_SIZE, NarrowBits, are_unlike, narrow_bits, wide_bits};
use crate::size::Size;
use std::marker::Model;

/// A colouring of at most 19 rows: 104 bytes, where the widest takes 168.
#[derive(Drop)]
pub(crate) struct NarrowColouring {
    size: Size,
    stones: NarrowBits,
    blacks: NarrowBits,
}

impl Model for NarrowColouring {
    ghost use Rattle.std.specs.Prelude.{List};
    ghost use Rattle.go_points.specs.declared.Cell.{Cell};
    ghost use Rattle.go_points.specs.Packed.{packed_cells};
    ghost use Rattle.go_points.specs.Private.Narrow.{IsNarrow};

    ghost Value = { List Cell };

    ghost view = { λ a. packed_cells a.size a.stones a.blacks };

    ghost invariant = { λ a. IsNarrow a.size a.stones a.blacks };
}

/// Whether a board of this size is narrow.
pub(crate) fn is_narrow(size: Size) -> bool
    ensures { result ≡ nat_le size NARROW_SIZE }
{
    size.rows() <= NARROW_SIZE
}

impl NarrowColouring {
    pub(crate) fn of(colouring: &Colouring) -> NarrowColouring
        requires { side_of colouring.now ≤ NARROW_SIZE }
        ensures { result ≡ colouring.now }
    {
        NarrowColouring {
            size: colouring.size,
            stones: narrow_bits(&colouring.stones),
            blacks: narrow_bits(&colouring.blacks),
        }
    }

    pub(crate) fn widen(&self) -> Colouring
        ensures { result ≡ self.now }
    {
        Colouring {
            size: self.size,
            stones: wide_bits(&self.stones),
            blacks: wide_bits(&self.blacks),
        }
    }

    /// Whether this is the colouring. Most others are told apart by the first words that differ.
    pub(crate) fn is(&self, colouring: &Colouring) -> bool
        ensures { result ≡ same_cells colouring.now self.now }
    {
        if are_unlike(&self.stones, &colouring.stones) {
            return false;
        }
        if are_unlike(&self.blacks, &colouring.blacks) {
            return false;
        }
        *colouring == self.widen()
    }
}
