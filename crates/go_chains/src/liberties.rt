//! Liberties of chains, and what a move would do to them.

ghost use Rattle.std.specs.Prelude.{◌≡◌, ◌*◌, ◌<◌, ◌≤◌, length, slice_index};
ghost use Rattle.std.specs.List.{list_any};
ghost use Rattle.go_points.specs.declared.TheConstants.{MAX_POINTS};
ghost use Rattle.go_points.specs.Grid.{side_of, neighbours};
ghost use Rattle.go_chains.specs.Joined.{HoldsThose};
ghost use Rattle.go_chains.specs.Private.Chains.{touches, TellsLiberties};
ghost use Rattle.go_chains.specs.Private.Quiet.{has_more as has_more_of, loses_last, lets_stay, is_liberty};

use go_points::{Colour, MAX_POINTS, PointSet, Size};
use stone_key::KeyedColouring;

/// How many points beside the point have this head.
pub(crate) fn shared(heads: &[u16], size: Size, number: usize, head: u16) -> u32
    requires room { size * size ≤ MAX_POINTS }
    requires heads_full { length heads.now ≡ MAX_POINTS }
    requires on { number < size * size }
    ensures { result ≡ touches size heads.now head number }
{
    let neighbours = size.point_at(number).neighbours(size);
    let mut found = 0;
    for neighbour in neighbours.as_slice() {
        if heads[neighbour.number(size)] == head {
            found += 1;
        }
    }
    found
}

/// The empty points beside the chain with this head.
pub(crate) fn liberties_of(colouring: &KeyedColouring, heads: &[u16], head: u16) -> PointSet
    requires heads_full { length heads.now ≡ MAX_POINTS }
    ensures { HoldsThose (side_of colouring.now)
        (is_liberty (side_of colouring.now) colouring.now heads.now head) result }
{
    let size = colouring.size();
    prove!(size.area() <= MAX_POINTS);
    let mut set = PointSet::new();
    for number in 0..size.area() {
        let point = size.point_at(number);
        if colouring.get(point).is_empty() && 0 < shared(heads, size, number, head) {
            set.insert(point);
        }
    }
    set
}

// Whether the chain of the neighbour has a liberty besides the point.
fn has_more(heads: &[u16], counts: &[u32], size: Size, number: usize, neighbour: usize) -> bool
    requires room { size * size ≤ MAX_POINTS }
    requires heads_full { length heads.now ≡ MAX_POINTS }
    requires counts_full { length counts.now ≡ MAX_POINTS }
    requires on { number < size * size }
    requires neighbour_on { neighbour < size * size }
    requires within { slice_index heads.now neighbour < size * size }
    ensures { result ≡ has_more_of size heads.now counts.now number neighbour }
{
    let head = heads[neighbour];
    shared(heads, size, number, head) < counts[head as usize]
}

/// Whether a stone of the colour at the point takes a chain off.
pub(crate) fn takes_chain(
    colouring: &KeyedColouring,
    heads: &[u16],
    counts: &[u32],
    colour: Colour,
    number: usize,
) -> bool
    requires heads_full { length heads.now ≡ MAX_POINTS }
    requires counts_full { length counts.now ≡ MAX_POINTS }
    requires on { number < side_of colouring.now * side_of colouring.now }
    requires tells { TellsLiberties (side_of colouring.now) colouring.now heads.now counts.now }
    ensures { result ≡ list_any
        (loses_last (side_of colouring.now) colouring.now heads.now counts.now colour number)
        (neighbours (side_of colouring.now) number) }
{
    let size = colouring.size();
    prove!(size.area() <= MAX_POINTS);
    let neighbours = size.point_at(number).neighbours(size);
    for neighbour in neighbours.as_slice() {
        let is_other = colouring.get(*neighbour).is_stone_of(colour.opponent());
        if is_other && !has_more(heads, counts, size, number, neighbour.number(size)) {
            return true;
        }
    }
    false
}

/// Whether a stone of the colour at the point has a liberty of its own, or through its neighbours of that colour.
pub(crate) fn has_liberty(
    colouring: &KeyedColouring,
    heads: &[u16],
    counts: &[u32],
    colour: Colour,
    number: usize,
) -> bool
    requires heads_full { length heads.now ≡ MAX_POINTS }
    requires counts_full { length counts.now ≡ MAX_POINTS }
    requires on { number < side_of colouring.now * side_of colouring.now }
    requires tells { TellsLiberties (side_of colouring.now) colouring.now heads.now counts.now }
    ensures { result ≡ list_any
        (lets_stay (side_of colouring.now) colouring.now heads.now counts.now colour number)
        (neighbours (side_of colouring.now) number) }
{
    let size = colouring.size();
    prove!(size.area() <= MAX_POINTS);
    let neighbours = size.point_at(number).neighbours(size);
    for neighbour in neighbours.as_slice() {
        let cell = colouring.get(*neighbour);
        if cell.is_empty() {
            return true;
        }
        if cell.is_stone_of(colour)
            && has_more(heads, counts, size, number, neighbour.number(size))
        {
            return true;
        }
    }
    false
}
