//! What every point of a board holds.

ghost use Rattle.std.specs.Prelude.{◌≡◌, ◌*◌, ◌<◌, ◌≤◌, ◌≢◌, ℕ, replicate, slice_set};
ghost use Rattle.go_points.specs.declared.Cell.TheVariants.{Empty};
ghost use Rattle.go_points.specs.Grid.{cell_at, side_of, IsColouring};
ghost use Rattle.go_points.specs.Place.{IsOn, number_of};

use crate::point::Point;
use crate::point_bits::{PointBits, next_unlike, no_bits, read_bit, write_bit};
use crate::size::Size;
use crate::{Cell, Colour, MAX_POINTS};
use std::cmp::Ordering;
use std::hash::{Hash, Hasher};
use std::marker::Model;

/// What every point of a board holds, in two bits a cell, with room for the widest board. Colourings are ordered as their texts
/// are. No call allocates memory.
#[derive(Clone, Copy, Debug)]
pub struct Colouring {
    pub(crate) size: Size,
    // One bit for each point: whether there is a stone, and whether it is black.
    pub(crate) stones: PointBits,
    pub(crate) blacks: PointBits,
}

impl Model for Colouring {
    ghost use Rattle.std.specs.Prelude.{List};
    ghost use Rattle.go_points.specs.declared.Cell.{Cell};
    ghost use Rattle.go_points.specs.Grid.{side_of};
    ghost use Rattle.go_points.specs.Packed.{IsPacked, packed_cells, packed_side, stone_words, black_words, stones_back, blacks_back};

    ghost Value = { List Cell };

    ghost view = { λ a. packed_cells a.size a.stones a.blacks };

    ghost invariant = { λ a. IsPacked a.size a.stones a.blacks };

    ghost inverse = { λ c. record
        { size = side_of c; stones = stone_words c; blacks = black_words c } };

    ghost inverse_ok = { λ a h. λ i. record {
      size = packed_side a.size a.stones a.blacks i;
      stones = stones_back a.size a.stones a.blacks h i;
      blacks = blacks_back a.size a.stones a.blacks h i;
    } };
}

impl PartialEq for Colouring {
    ghost use Rattle.go_points.specs.Grid.{same_cells};
    ghost use Rattle.go_points.specs.Equal.{same_cells_equiv};
    ghost use Rattle.std.specs.Cmp.{partial_equiv_from_equiv};

    ghost eq = { same_cells };

    ghost laws = { partial_equiv_from_equiv same_cells_equiv };

    fn eq(&self, other: &Colouring) -> bool {
        if self.size != other.size {
            return false;
        }
        if self.stones != other.stones {
            return false;
        }
        self.blacks == other.blacks
    }
}

impl Eq for Colouring {
    ghost use Rattle.go_points.specs.Equal.{same_cells_equiv};

    ghost laws = { same_cells_equiv };
}

impl PartialOrd for Colouring {
    ghost use Rattle.std.specs.Ordering.{as_partial_cmp};
    ghost use Rattle.std.specs.Cmp.{partial_order_from_agreeing_total};
    ghost use Rattle.std.specs.Cmp.Lexicographic.{on_texts};
    ghost use Rattle.std.proofs.Common.{refl};
    ghost use Rattle.go_points.specs.Text.{text_of};
    ghost use Rattle.go_points.specs.Order.{text_order, same_cells_ties};

    ghost partial_cmp = { as_partial_cmp text_order };

    ghost laws = { partial_order_from_agreeing_total text_order (on_texts text_of)
        (λ c d. refl) same_cells_ties };

    fn partial_cmp(&self, other: &Colouring) -> Option<Ordering> {
        Some(self.cmp(other))
    }
}

impl Ord for Colouring {
    ghost use Rattle.std.specs.Cmp.Lexicographic.{on_texts};
    ghost use Rattle.std.proofs.Common.{refl};
    ghost use Rattle.go_points.specs.Text.{text_of};
    ghost use Rattle.go_points.specs.Order.{text_order, same_cells_ties};

    ghost cmp = { text_order };

    ghost total = { on_texts text_of };

    ghost matches_eq = { same_cells_ties };

    ghost matches_partial_cmp = { λ c d. refl };

    fn cmp(&self, other: &Colouring) -> Ordering {
        let most = self.size().area().min(other.size().area());
        for number in self.first_difference(other).min(most)..most {
            match self.cell(number).cmp(&other.cell(number)) {
                Ordering::Equal => {}
                Ordering::Less => return Ordering::Less,
                Ordering::Greater => return Ordering::Greater,
            }
        }
        self.size().area().cmp(&other.size().area())
    }
}

impl Hash for Colouring {
    ghost use Rattle.std.specs.Hash as fed;
    ghost use Rattle.std.specs.Prelude.{◌++◌};
    ghost use Rattle.std.proofs.Common.{ap};
    ghost use Rattle.go_points.specs.Equal.{same_cells_eq};
    ghost use Rattle.go_points.specs.Packed.{stone_words, black_words};

    ghost hash_input = { λ c. fed.slice fed.u64 (stone_words c)
        ++ fed.slice fed.u64 (black_words c) };

    ghost respects_eq = { λ x y e. ap (λ c. fed.slice fed.u64 (stone_words c) ++ fed.slice fed.u64 (black_words c)) (same_cells_eq x y e) };

    fn hash<H: Hasher>(&self, state: &mut H) {
        self.stones.hash(state);
        self.blacks.hash(state);
    }
}

impl Colouring {
    /// The colouring without stones.
    pub fn empty(size: Size) -> Colouring
        ensures value { result ≡ replicate (size * size) Empty }
        ensures size { side_of result ≡ size }
    {
        prove!(size.area() <= MAX_POINTS);
        Colouring {
            size,
            stones: no_bits(),
            blacks: no_bits(),
        }
    }

    /// The size of the board.
    pub fn size(&self) -> Size
        ensures value { result ≡ side_of self.now }
        ensures colouring { IsColouring (side_of self.now) self.now }
    {
        self.size
    }

    /// What the point holds.
    pub fn get(&self, point: Point) -> Cell
        requires { IsOn (side_of self.now) point }
        ensures value { result ≡ cell_at self.now (number_of (side_of self.now) point) }
        ensures colouring { IsColouring (side_of self.now) self.now }
    {
        self.cell(point.number(self.size))
    }

    /// Makes the point hold `cell`.
    pub fn set(&mut self, point: Point, cell: Cell)
        requires { IsOn (side_of self.old) point }
        ensures value { self.new ≡ slice_set self.old (number_of (side_of self.old) point) cell }
        ensures size { side_of self.new ≡ side_of self.old }
    {
        let number = point.number(self.size);
        write_bit(&mut self.stones, number, !cell.is_empty());
        write_bit(&mut self.blacks, number, cell.is_stone_of(Colour::Black));
    }

    /// What the point of this number holds, in the order of the points.
    pub fn cell(&self, number: usize) -> Cell
        requires { number < side_of self.now * side_of self.now }
        ensures { result ≡ cell_at self.now number }
    {
        if !read_bit(&self.stones, number) {
            Cell::Empty
        } else if read_bit(&self.blacks, number) {
            Cell::Stone(Colour::Black)
        } else {
            Cell::Stone(Colour::White)
        }
    }

    /// The number of the first point at or after this number where the other colouring holds something else. If there is no such
    /// point, the result is a number that no point has. It looks at each word of bits.
    pub fn next_difference(&self, other: &Colouring, from: usize) -> usize
        requires { side_of other.now ≡ side_of self.now }
        ensures later { from ≤ result }
        ensures same { (i : ℕ) → from ≤ i → i < result → cell_at self.now i ≡ cell_at other.now i }
        ensures differs { result < side_of self.now * side_of self.now
            → cell_at self.now result ≢ cell_at other.now result }
    {
        next_unlike(
            &self.stones,
            &other.stones,
            &self.blacks,
            &other.blacks,
            from,
            self.size.area(),
        )
    }

    // The number of the first point where two colourings differ, or a number that no point has.
    fn first_difference(&self, other: &Colouring) -> usize
        ensures { (i : ℕ) → i < result → cell_at self.now i ≡ cell_at other.now i }
    {
        if self.size() != other.size() {
            return 0;
        }
        self.next_difference(other, 0)
    }
}
