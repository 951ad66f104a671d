//! Taking off a stone: alone if its chain stays whole without it, as is usual when a move is taken back, and otherwise with the
//! whole chain.

ghost use Rattle.std.specs.Prelude.{◌≡◌, ◌≢◌, ◌⊎◌, ◌*◌, ◌<◌, ◌≤◌, ℕ, IsTrue, length, slice_index, slice_set};
ghost use Rattle.go_points.specs.declared.Cell.TheVariants.{Empty};
ghost use Rattle.go_points.specs.declared.TheConstants.{MAX_POINTS, MAX_SIZE};
ghost use Rattle.go_points.specs.Grid.{adjacent, cell_at, differ_by_one, side_of};
ghost use Rattle.go_chains.specs.Private.Chains.{nowhere, IsSettled, Meet, MeetAt, IsNoCutPoint};

use crate::circles::{give_back, remove};
use crate::liberties::shared;
use crate::stones::empties_at;
use go_points::{Cell, MAX_POINTS, MAX_SIZE, Size};
use stone_key::KeyedColouring;

// Whether two points are adjacent.
fn is_beside(size: Size, one: usize, other: usize) -> bool
    requires one_on { one < size * size }
    requires other_on { other < size * size }
    ensures { result ≡ adjacent size one other }
{
    let first = size.point_at(one);
    let second = size.point_at(other);
    (first.row() == second.row() && differ_by_one(first.col(), second.col()))
        || (first.col() == second.col() && differ_by_one(first.row(), second.row()))
}

fn differ_by_one(one: u8, other: u8) -> bool
    requires one_small { one < MAX_SIZE }
    requires other_small { other < MAX_SIZE }
    ensures { result ≡ differ_by_one one other }
{
    one + 1 == other || other + 1 == one
}

// Whether two points are the same, or are both beside one stone of the chain that is not this one.
fn meet(heads: &[u16], size: Size, number: usize, head: u16, one: usize, other: usize) -> bool
    requires room { size * size ≤ MAX_POINTS }
    requires heads_full { length heads.now ≡ MAX_POINTS }
    requires one_on { one < size * size }
    requires other_on { other < size * size }
    ensures { IsTrue result → Meet size heads.now head number one other }
{
    if one == other {
        return true;
    }
    let neighbours = size.point_at(one).neighbours(size);
    for neighbour in neighbours.as_slice() {
        let middle = neighbour.number(size);
        if middle != number && heads[middle] == head && is_beside(size, middle, other) {
            return true;
        }
    }
    false
}

/// Whether each stone of the chain beside this one meets another.
pub(crate) fn meet_at(heads: &[u16], size: Size, number: usize, head: u16, centre: usize) -> bool
    requires room { size * size ≤ MAX_POINTS }
    requires heads_full { length heads.now ≡ MAX_POINTS }
    requires on { number < size * size }
    requires centre_on { centre < size * size }
    ensures { IsTrue result → MeetAt size heads.now head number centre }
{
    let neighbours = size.point_at(number).neighbours(size);
    for neighbour in neighbours.as_slice() {
        let stone = neighbour.number(size);
        if heads[stone] == head && !meet(heads, size, number, head, stone, centre) {
            return false;
        }
    }
    true
}

// Whether the stone can go and leave its chain whole: it is not the head but the next after it, and the stones of the chain beside it meet
// at one of them.
fn is_no_cut_point(heads: &[u16], next: &[u16], size: Size, number: usize, head: u16) -> bool
    requires room { size * size ≤ MAX_POINTS }
    requires heads_full { length heads.now ≡ MAX_POINTS }
    requires next_full { length next.now ≡ MAX_POINTS }
    requires on { number < size * size }
    requires head_on { head < size * size }
    ensures { IsTrue result → IsNoCutPoint size heads.now next.now head number }
{
    if head as usize == number || next[head as usize] as usize != number {
        return false;
    }
    let neighbours = size.point_at(number).neighbours(size);
    for neighbour in neighbours.as_slice() {
        let centre = neighbour.number(size);
        if heads[centre] == head && meet_at(heads, size, number, head, centre) {
            return true;
        }
    }
    false
}

// Takes off a stone that is no cut point.
fn remove_stone(
    colouring: &mut KeyedColouring,
    heads: &mut [u16],
    next: &mut [u16],
    counts: &mut [u32],
    number: usize,
    head: u16,
)
    requires settled { IsSettled (side_of colouring.old) colouring.old heads.old next.old
        counts.old }
    requires on { number < side_of colouring.old * side_of colouring.old }
    requires stone { slice_index heads.old number ≢ nowhere }
    requires here { slice_index heads.old number ≡ head }
    requires whole { IsNoCutPoint (side_of colouring.old) heads.old next.old head number }
    ensures size { side_of colouring.new ≡ side_of colouring.old }
    ensures settled { IsSettled (side_of colouring.old) colouring.new heads.new next.new
        counts.new }
    ensures cells { colouring.new ≡ slice_set colouring.old number Empty }
{
    let size = colouring.size();
    prove!(size.area() <= MAX_POINTS);
    let beside = shared(heads, size, number, head);
    let left = counts[head as usize] + beside - empties_at(colouring, number);
    give_back(heads, counts, size, number, head);
    counts[head as usize] = left;
    colouring.set(size.point_at(number), Cell::Empty);
    next[head as usize] = next[number];
    heads[number] = MAX_POINTS as u16;
}

/// Takes off the stone at the point, and its whole chain if the rest might not be one chain.
pub(crate) fn take_off(
    colouring: &mut KeyedColouring,
    heads: &mut [u16],
    next: &mut [u16],
    counts: &mut [u32],
    number: usize,
)
    requires settled { IsSettled (side_of colouring.old) colouring.old heads.old next.old
        counts.old }
    requires on { number < side_of colouring.old * side_of colouring.old }
    requires stone { slice_index heads.old number ≢ nowhere }
    ensures size { side_of colouring.new ≡ side_of colouring.old }
    ensures settled { IsSettled (side_of colouring.old) colouring.new heads.new next.new
        counts.new }
    ensures here { cell_at colouring.new number ≡ Empty }
    ensures rest { (p : ℕ) → p < side_of colouring.old * side_of colouring.old
        → (cell_at colouring.new p ≡ Empty) ⊎ (cell_at colouring.new p ≡ cell_at colouring.old p) }
{
    let size = colouring.size();
    prove!(size.area() <= MAX_POINTS);
    let head = heads[number];
    if is_no_cut_point(heads, next, size, number, head) {
        remove_stone(colouring, heads, next, counts, number, head);
    } else {
        remove(colouring, heads, next, counts, head);
    }
}
