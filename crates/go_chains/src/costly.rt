//! Moves that are costly to take back: they join chains or take chains off, and then the stones of those chains are put down again
//! one by one. Whoever may take such a move back keeps a copy of the board from before it. What is told here is a hint: no more is
//! promised than that it can be asked, and its bounds are tested in place of proved.

ghost use Rattle.std.specs.Prelude.{◌≡◌, ◌*◌, ◌<◌, ◌≤◌, length};
ghost use Rattle.go_points.specs.declared.TheConstants.{MAX_POINTS};
ghost use Rattle.go_points.specs.Grid.{side_of};
ghost use Rattle.go_points.specs.Place.{IsOn};

use crate::cut_point::meet_at;
use go_points::{Colour, MAX_POINTS, Point, Size};
use stone_key::KeyedColouring;

/// A copy of the board costs as much as putting down about this many stones.
const MANY: u32 = 4;

/// The most that a chain counts whose last liberty is one point.
const MOST_BESIDE: u32 = 4;

/// The head of an empty point, and of one beyond the edge.
const NOWHERE: u16 = MAX_POINTS as u16;

// The head of the point with this number, if the board has it.
fn head_if(heads: &[u16], is_inside: bool, number: usize) -> u16 {
    if !is_inside {
        return NOWHERE;
    }
    match heads.get(number) {
        Some(head) => *head,
        None => NOWHERE,
    }
}

// The heads of the points beside this one.
fn heads_beside(heads: &[u16], size: Size, point: Point, number: usize) -> [u16; 4] {
    let rows = size.rows() as usize;
    let last = size.rows() - 1;
    [
        head_if(heads, point.row() > 0, number.wrapping_sub(rows)),
        head_if(heads, point.col() > 0, number.wrapping_sub(1)),
        head_if(heads, point.col() < last, number.wrapping_add(1)),
        head_if(heads, point.row() < last, number.wrapping_add(rows)),
    ]
}

// Whether the chain with this head has this colour.
fn is_of(colouring: &KeyedColouring, head: u16, colour: Colour) -> bool {
    (head as usize) < colouring.size().area() && colouring.at(head as usize).is_stone_of(colour)
}

// Whether the chain with this head has no liberty but the point with these heads beside it.
fn has_last(beside: [u16; 4], counts: &[u32], head: u16) -> bool {
    let Some(count) = counts.get(head as usize).copied() else {
        return false;
    };
    if count > MOST_BESIDE {
        return false;
    }
    let mut touching = 0u32;
    for other in beside {
        if other == head {
            touching = touching.saturating_add(1);
        }
    }
    count == touching
}

// How many stones the chain with this head has, if that is not more than `MANY`.
fn stones_of(next: &[u16], head: u16) -> u32 {
    let mut at = head as usize;
    for stones in 1..=MANY {
        let Some(after) = next.get(at).copied() else {
            return 0;
        };
        if after == head {
            return stones;
        }
        at = after as usize;
    }
    MANY + 1
}

// Whether the stones of a chain beside the point are joined without it, so that it can be taken off alone.
fn is_bridged(heads: &[u16], size: Size, number: usize, head: u16) -> bool
    requires room { size * size ≤ MAX_POINTS }
    requires heads_full { length heads.now ≡ MAX_POINTS }
    requires on { number < size * size }
{
    let neighbours = size.point_at(number).neighbours(size);
    for neighbour in neighbours.as_slice() {
        let centre = neighbour.number(size);
        if heads[centre] == head && meet_at(heads, size, number, head, centre) {
            return true;
        }
    }
    false
}

// How many stones the chains have that a stone of the colour would join, at most. Not inlined, since most moves join none.
#[inline(never)]
fn joined_stones(
    colouring: &KeyedColouring,
    heads: &[u16],
    next: &[u16],
    beside: [u16; 4],
    colour: Colour,
    number: usize,
) -> u32
    requires heads_full { length heads.now ≡ MAX_POINTS }
    requires on { number < side_of colouring.now * side_of colouring.now }
{
    let mut first = NOWHERE;
    let mut joins = false;
    let mut stones = 0u32;
    for head in beside {
        if is_of(colouring, head, colour) {
            joins = joins || (first != NOWHERE && first != head);
            first = head;
            stones = stones.saturating_add(stones_of(next, head));
        }
    }
    let size = colouring.size();
    prove!(size.area() <= MAX_POINTS);
    if joins || (stones > MANY && !is_bridged(heads, size, number, first)) {
        stones
    } else {
        0
    }
}

// How many stones the chains of the colour have that have their last liberty at the point, at most. Not inlined, as that.
#[inline(never)]
fn taken_stones(
    colouring: &KeyedColouring,
    next: &[u16],
    counts: &[u32],
    beside: [u16; 4],
    colour: Colour,
) -> u32 {
    let mut stones = 0u32;
    for head in beside {
        if is_of(colouring, head, colour) && has_last(beside, counts, head) {
            stones = stones.saturating_add(stones_of(next, head));
        }
    }
    stones
}

// How many points beside the one with these heads beside it hold a stone of the colour.
fn count_own(colouring: &KeyedColouring, beside: [u16; 4], colour: Colour) -> u32 {
    let mut count = 0u32;
    for head in beside {
        if is_of(colouring, head, colour) {
            count = count.saturating_add(1);
        }
    }
    count
}

// Whether a stone of the colour takes a chain beside it.
fn takes_any(colouring: &KeyedColouring, counts: &[u32], beside: [u16; 4], colour: Colour) -> bool {
    for head in beside {
        if is_of(colouring, head, colour.opponent()) && has_last(beside, counts, head) {
            return true;
        }
    }
    false
}

/// Whether a move at an empty point may cost more to take back than a copy of the board. Most moves join and take nothing, which a
/// look at the points beside them tells.
pub(crate) fn is_costly(
    colouring: &KeyedColouring,
    heads: &[u16],
    next: &[u16],
    counts: &[u32],
    colour: Colour,
    point: Point,
) -> bool
    requires heads_full { length heads.now ≡ MAX_POINTS }
    requires on { IsOn (side_of colouring.now) point }
{
    let size = colouring.size();
    let number = point.number(size);
    let beside = heads_beside(heads, size, point, number);
    (count_own(colouring, beside, colour) > 1
        && joined_stones(colouring, heads, next, beside, colour, number) > MANY)
        || (takes_any(colouring, counts, beside, colour)
            && taken_stones(colouring, next, counts, beside, colour.opponent()) > MANY)
}
