//! The word of a stone, and the key of a colouring.

ghost use Rattle.std.specs.Prelude.{◌≡◌, ◌<◌, ◌+◌, ◌*◌};
ghost use Rattle.go_points.specs.declared.Cell.TheVariants.{Stone};
ghost use Rattle.go_points.specs.declared.TheConstants.{MAX_POINTS};
ghost use Rattle.stone_key.specs.Key.{key_of, word_for, word_after};

use crate::words::word;
use go_points::{Cell, Colour, Colouring};

/// The word of a stone of this colour at the point with this number, on a board of any size. It takes the same time for each.
pub fn stone_word(number: usize, colour: Colour) -> u64
    requires { number < MAX_POINTS }
    ensures { result ≡ word_for (Stone colour) (word_after (2 * number))
        (word_after (2 * number + 1)) }
{
    match colour {
        Colour::Black => word(2 * number),
        Colour::White => word(2 * number + 1),
    }
}

/// The word of what the point with this number holds; 0 if it is empty.
pub fn cell_word(number: usize, cell: Cell) -> u64
    requires { number < MAX_POINTS }
    ensures { result ≡ word_for cell (word_after (2 * number)) (word_after (2 * number + 1)) }
{
    match cell {
        Cell::Empty => 0,
        Cell::Stone(colour) => stone_word(number, colour),
    }
}

/// The exclusive or of the words of the stones, in time linear in the number of points.
pub fn key_of(colouring: &Colouring) -> u64
    ensures { result ≡ key_of colouring.now }
{
    let size = colouring.size();
    let mut key = 0;
    for number in 0..size.area() {
        key ^= cell_word(number, colouring.cell(number));
    }
    key
}
