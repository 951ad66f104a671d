//! Taking off chains without liberties.

ghost use Rattle.std.specs.Prelude.{◌≡◌, ◌≢◌, ◌+◌, ◌*◌, ◌<◌, ℕ, slice_index};
ghost use Rattle.go_points.specs.declared.Cell.TheVariants.{Stone};
ghost use Rattle.go_points.specs.declared.TheConstants.{MAX_POINTS};
ghost use Rattle.go_points.specs.Clear.{clear};
ghost use Rattle.go_points.specs.Grid.{cell_at, side_of};
ghost use Rattle.go_points.specs.Private.Stones.{stone_count};
ghost use Rattle.go_chains.specs.Private.Chains.{touches, IsSettled, LacksLiberties, LeavesLiberties};

use crate::circles::remove;
use go_points::{Colour, MAX_POINTS};
use stone_key::KeyedColouring;

/// Takes the chain at the point off if it has this colour and no liberty. Returns how many stones it had.
#[inline(always)]
pub(crate) fn remove_without_liberty(
    colouring: &mut KeyedColouring,
    heads: &mut [u16],
    next: &[u16],
    counts: &mut [u32],
    colour: Colour,
    number: usize,
) -> u16
    requires settled { IsSettled (side_of colouring.old) colouring.old heads.old next.now
        counts.old }
    requires on { number < side_of colouring.old * side_of colouring.old }
    ensures size { side_of colouring.new ≡ side_of colouring.old }
    ensures settled { IsSettled (side_of colouring.old) colouring.new heads.new next.now
        counts.new }
    ensures cleared { clear (side_of colouring.old) colouring.new colour
        ≡ clear (side_of colouring.old) colouring.old colour }
    ensures left { LeavesLiberties (side_of colouring.old) colouring.old heads.old colouring.new
        heads.new }
    ensures passed { (h : ℕ) → LacksLiberties (side_of colouring.old) colouring.new heads.new h
        → cell_at colouring.new h ≡ Stone colour → slice_index heads.old number ≢ h }
    ensures count { result + stone_count colouring.new ≡ stone_count colouring.old }
{
    let size = colouring.size();
    prove!(size.area() <= MAX_POINTS);
    if !colouring.at(number).is_stone_of(colour) {
        return 0;
    }
    let head = heads[number];
    if counts[head as usize] != 0 {
        return 0;
    }
    remove(colouring, heads, next, counts, head)
}

/// Takes off the chains of this colour that are beside the point and have no liberty. Returns how many stones they had.
pub(crate) fn capture(
    colouring: &mut KeyedColouring,
    heads: &mut [u16],
    next: &[u16],
    counts: &mut [u32],
    colour: Colour,
    number: usize,
) -> u16
    requires settled { IsSettled (side_of colouring.old) colouring.old heads.old next.now
        counts.old }
    requires on { number < side_of colouring.old * side_of colouring.old }
    requires beside { (h : ℕ) → LacksLiberties (side_of colouring.old) colouring.old heads.old h
        → cell_at colouring.old h ≡ Stone colour
        → 0 < touches (side_of colouring.old) heads.old h number }
    ensures size { side_of colouring.new ≡ side_of colouring.old }
    ensures settled { IsSettled (side_of colouring.old) colouring.new heads.new next.now
        counts.new }
    ensures cleared { colouring.new ≡ clear (side_of colouring.old) colouring.old colour }
    ensures left { LeavesLiberties (side_of colouring.old) colouring.old heads.old colouring.new
        heads.new }
    ensures count { result + stone_count colouring.new ≡ stone_count colouring.old }
{
    let size = colouring.size();
    prove!(size.area() <= MAX_POINTS);
    let neighbours = size.point_at(number).neighbours(size);
    let mut removed = 0;
    for neighbour in neighbours.as_slice() {
        removed += remove_without_liberty(
            colouring,
            heads,
            next,
            counts,
            colour,
            neighbour.number(size),
        );
    }
    prove!(colouring.size().area() <= MAX_POINTS);
    removed
}
