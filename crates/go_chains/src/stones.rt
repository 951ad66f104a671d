//! Putting down a stone, and joining its chain with those beside it.

ghost use Rattle.std.specs.Prelude.{◌≡◌, ◌*◌, ◌<◌, true, slice_index, slice_set};
ghost use Rattle.go_points.specs.declared.Cell.TheVariants.{Stone};
ghost use Rattle.go_points.specs.declared.TheConstants.{MAX_POINTS};
ghost use Rattle.go_points.specs.Grid.{adjacent, cell_at, side_of};
ghost use Rattle.go_chains.specs.Private.Chains.{nowhere, empties_beside, AreFull, HasCircles, HasCounts, IsSettled, KeepsTogether, KeepsOthers};

use crate::circles::{merge, take_from};
use go_points::{Cell, Colour, MAX_POINTS};
use stone_key::KeyedColouring;

/// How many empty points are beside the point.
pub(crate) fn empties_at(colouring: &KeyedColouring, number: usize) -> u32
    requires on { number < side_of colouring.now * side_of colouring.now }
    ensures { result ≡ empties_beside (side_of colouring.now) colouring.now number }
{
    let size = colouring.size();
    prove!(size.area() <= MAX_POINTS);
    let neighbours = size.point_at(number).neighbours(size);
    let mut found = 0;
    for neighbour in neighbours.as_slice() {
        if colouring.get(*neighbour).is_empty() {
            found += 1;
        }
    }
    found
}

// Puts a stone down at an empty point, as a chain of its own.
fn place(
    colouring: &mut KeyedColouring,
    heads: &mut [u16],
    next: &mut [u16],
    counts: &mut [u32],
    colour: Colour,
    number: usize,
)
    requires settled { IsSettled (side_of colouring.old) colouring.old heads.old next.old
        counts.old }
    requires on { number < side_of colouring.old * side_of colouring.old }
    requires free { slice_index heads.old number ≡ nowhere }
    ensures full { AreFull heads.new next.new counts.new }
    ensures size { side_of colouring.new ≡ side_of colouring.old }
    ensures cells { colouring.new ≡ slice_set colouring.old number (Stone colour) }
    ensures heads { heads.new ≡ slice_set heads.old number number }
    ensures chains { HasCircles (side_of colouring.old) colouring.new heads.new next.new }
    ensures counted { HasCounts (side_of colouring.old) colouring.new heads.new counts.new nowhere }
{
    let size = colouring.size();
    prove!(size.area() <= MAX_POINTS);
    let free = take_from(heads, counts, size, number);
    colouring.set(size.point_at(number), Cell::Stone(colour));
    heads[number] = number as u16;
    next[number] = number as u16;
    counts[number] = free;
}

// Joins the chain of the stone with that of the neighbour, if the neighbour has the same colour.
fn join(
    colouring: &KeyedColouring,
    heads: &mut [u16],
    next: &mut [u16],
    counts: &mut [u32],
    colour: Colour,
    number: usize,
    neighbour: usize,
)
    requires full { AreFull heads.old next.old counts.old }
    requires beside { adjacent (side_of colouring.now) number neighbour ≡ true }
    requires stone { cell_at colouring.now number ≡ Stone colour }
    requires chains { HasCircles (side_of colouring.now) colouring.now heads.old next.old }
    requires counted { HasCounts (side_of colouring.now) colouring.now heads.old counts.old
        nowhere }
    ensures full { AreFull heads.new next.new counts.new }
    ensures together { KeepsTogether (side_of colouring.now) heads.old heads.new }
    ensures others { KeepsOthers (side_of colouring.now) number heads.old heads.new }
    ensures bound { cell_at colouring.now neighbour ≡ Stone colour
        → slice_index heads.new number ≡ slice_index heads.new neighbour }
    ensures chains { HasCircles (side_of colouring.now) colouring.now heads.new next.new }
    ensures counted { HasCounts (side_of colouring.now) colouring.now heads.new counts.new nowhere }
{
    let size = colouring.size();
    prove!(size.area() <= MAX_POINTS);
    let into = heads[neighbour];
    let from = heads[number];
    if into == from || !colouring.at(neighbour).is_stone_of(colour) {
        return;
    }
    merge(colouring, heads, next, counts, into, from);
}

/// Puts a stone down at an empty point, and joins it with the chains of its colour beside it. Nothing is taken off.
pub(crate) fn fill(
    colouring: &mut KeyedColouring,
    heads: &mut [u16],
    next: &mut [u16],
    counts: &mut [u32],
    colour: Colour,
    number: usize,
)
    requires settled { IsSettled (side_of colouring.old) colouring.old heads.old next.old
        counts.old }
    requires on { number < side_of colouring.old * side_of colouring.old }
    requires free { slice_index heads.old number ≡ nowhere }
    ensures size { side_of colouring.new ≡ side_of colouring.old }
    ensures cells { colouring.new ≡ slice_set colouring.old number (Stone colour) }
    ensures others { KeepsOthers (side_of colouring.old) number heads.old heads.new }
    ensures settled { IsSettled (side_of colouring.old) colouring.new heads.new next.new
        counts.new }
{
    place(colouring, heads, next, counts, colour, number);
    let size = colouring.size();
    let neighbours = size.point_at(number).neighbours(size);
    for neighbour in neighbours.as_slice() {
        join(
            colouring,
            heads,
            next,
            counts,
            colour,
            number,
            neighbour.number(size),
        );
    }
}
