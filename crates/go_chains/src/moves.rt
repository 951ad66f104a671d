//! A move, over the parts of a board.

ghost use Rattle.std.specs.Prelude.{◌≡◌, ◌*◌, ◌<◌, slice_index};
ghost use Rattle.go_points.specs.declared.TheConstants.{MAX_POINTS};
ghost use Rattle.go_points.specs.Grid.{side_of};
ghost use Rattle.go_points.specs.Move.{after_move, taken_by_move};
ghost use Rattle.go_chains.specs.Private.Chains.{nowhere, IsBoard};

use crate::capture::{capture, remove_without_liberty};
use crate::stones::fill;
use go_points::{Colour, MAX_POINTS};
use stone_key::KeyedColouring;

/// Puts a stone down at an empty point, then takes off the chains of the other colour without liberties, and then its own chain if
/// that has none. Returns how many stones are taken off.
pub(crate) fn make_move(
    colouring: &mut KeyedColouring,
    heads: &mut [u16],
    next: &mut [u16],
    counts: &mut [u32],
    colour: Colour,
    number: usize,
) -> u16
    requires board { IsBoard (side_of colouring.old) colouring.old heads.old next.old counts.old }
    requires on { number < side_of colouring.old * side_of colouring.old }
    requires free { slice_index heads.old number ≡ nowhere }
    ensures size { side_of colouring.new ≡ side_of colouring.old }
    ensures board { IsBoard (side_of colouring.old) colouring.new heads.new next.new counts.new }
    ensures made { colouring.new ≡ after_move (side_of colouring.old) colouring.old colour number }
    ensures taken { result ≡ taken_by_move (side_of colouring.old) colouring.old colour number }
{
    prove!(colouring.size().area() <= MAX_POINTS);
    fill(colouring, heads, next, counts, colour, number);
    let other = colour.opponent();
    let captured = capture(colouring, heads, next, counts, other, number);
    let lost = remove_without_liberty(colouring, heads, next, counts, colour, number);
    prove!(colouring.size().area() <= MAX_POINTS);
    captured + lost
}
