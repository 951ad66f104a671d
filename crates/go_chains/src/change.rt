//! How a board takes over another colouring: the stones that the other does not hold are taken off, and then the stones that are
//! missing are put down.

ghost use Rattle.std.specs.Prelude.{◌≡◌, ◌≢◌, ◌⊎◌, ◌*◌, ◌<◌, ℕ, IsTrue, OnOk, OnErr, IfErr, IfSome, IfNone, Some, None, length, slice_index};
ghost use Rattle.go_points.specs.declared.Cell.TheVariants.{Empty};
ghost use Rattle.go_points.specs.declared.TheConstants.{MAX_POINTS};
ghost use Rattle.go_points.specs.Grid.{cell_at, side_of};
ghost use Rattle.go_points.specs.Liberty.{lacks_liberty as lacks_liberty_of, first_without_liberty};
ghost use Rattle.go_points.specs.Place.{IsOn, number_of};
ghost use Rattle.go_chains.specs.Private.Chains.{nowhere, AreFull, IsBoard, IsSettled, TellsLiberties, LivesAround, LivesWhereNew};

use crate::NoLiberty;
use crate::cut_point::take_off;
use crate::stones::fill;
use go_points::{Cell, Colouring, MAX_POINTS, Point};
use stone_key::KeyedColouring;

/// If more stones than this are new, looking once at each point is the faster way to tell whether all chains have liberties.
const FEW: usize = 32;

/// After so many points that change, it is asked whether most points do.
const MANY: usize = 32;

// Takes all stones off.
fn clear(colouring: &mut KeyedColouring, heads: &mut [u16], next: &[u16], counts: &[u32])
    requires { AreFull heads.old next.now counts.now }
    ensures size { side_of colouring.new ≡ side_of colouring.old }
    ensures settled { IsSettled (side_of colouring.old) colouring.new heads.new next.now
        counts.now }
    ensures empty { (p : ℕ) → cell_at colouring.new p ≡ Empty }
{
    let size = colouring.size();
    prove!(size.area() <= MAX_POINTS);
    *colouring = KeyedColouring::empty(size);
    heads.fill(MAX_POINTS as u16);
}

// Whether two colourings differ at half of the points, if `MANY` such points come before this one.
fn differ_widely(one: &Colouring, other: &Colouring, first: usize) -> bool
    requires { side_of other.now ≡ side_of one.now }
{
    let size = one.size();
    let mut number = first;
    for _ in MANY..size.area() / 2 {
        if number >= size.area() {
            return false;
        }
        number = one.next_difference(other, number + 1);
    }
    number < size.area()
}

// Takes off the stones at points where the other colouring holds something else, and those of their chains that cannot stay. If most
// points change, all stones are taken off at once. The next such point is looked for before a stone goes: a chain that goes with it
// is put down again later, so its stones are not looked at here.
fn remove_changed(
    colouring: &mut KeyedColouring,
    heads: &mut [u16],
    next: &mut [u16],
    counts: &mut [u32],
    wanted: &Colouring,
)
    requires settled { IsSettled (side_of colouring.old) colouring.old heads.old next.old
        counts.old }
    requires same_size { side_of wanted.now ≡ side_of colouring.old }
    ensures size { side_of colouring.new ≡ side_of colouring.old }
    ensures settled { IsSettled (side_of colouring.old) colouring.new heads.new next.new
        counts.new }
    ensures rest { (p : ℕ) → p < side_of colouring.old * side_of colouring.old
        → (cell_at colouring.new p ≡ Empty) ⊎ (cell_at colouring.new p ≡ cell_at wanted.now p) }
{
    let size = colouring.size();
    prove!(size.area() <= MAX_POINTS);
    let mut number = colouring.colouring().next_difference(wanted, 0);
    let mut changed = 0;
    'changed: while number < size.area() {
        if changed == MANY && differ_widely(colouring.colouring(), wanted, number) {
            clear(colouring, heads, next, counts);
            return;
        }
        changed += 1;
        let following = colouring.colouring().next_difference(wanted, number + 1);
        if heads[number] != MAX_POINTS as u16 {
            take_off(colouring, heads, next, counts, number);
        }
        number = following;
    }
}

// Makes an empty point hold the cell.
fn fill_cell(
    colouring: &mut KeyedColouring,
    heads: &mut [u16],
    next: &mut [u16],
    counts: &mut [u32],
    cell: Cell,
    number: usize,
)
    requires settled { IsSettled (side_of colouring.old) colouring.old heads.old next.old
        counts.old }
    requires on { number < side_of colouring.old * side_of colouring.old }
    requires free { slice_index heads.old number ≡ nowhere }
    ensures size { side_of colouring.new ≡ side_of colouring.old }
    ensures settled { IsSettled (side_of colouring.old) colouring.new heads.new next.new
        counts.new }
    ensures here { cell_at colouring.new number ≡ cell }
    ensures others { (q : ℕ) → q ≢ number → cell_at colouring.new q ≡ cell_at colouring.old q }
{
    prove!(colouring.size().area() <= MAX_POINTS);
    if let Cell::Stone(colour) = cell {
        fill(colouring, heads, next, counts, colour, number);
    }
}

// Puts down the stones that the other colouring holds at empty points.
fn fill_changed(
    colouring: &mut KeyedColouring,
    heads: &mut [u16],
    next: &mut [u16],
    counts: &mut [u32],
    wanted: &Colouring,
)
    requires settled { IsSettled (side_of colouring.old) colouring.old heads.old next.old
        counts.old }
    requires same_size { side_of wanted.now ≡ side_of colouring.old }
    requires rest { (p : ℕ) → p < side_of colouring.old * side_of colouring.old
        → (cell_at colouring.old p ≡ Empty) ⊎ (cell_at colouring.old p ≡ cell_at wanted.now p) }
    ensures size { side_of colouring.new ≡ side_of colouring.old }
    ensures settled { IsSettled (side_of colouring.old) colouring.new heads.new next.new
        counts.new }
    ensures value { colouring.new ≡ wanted.now }
{
    let size = colouring.size();
    prove!(size.area() <= MAX_POINTS);
    let mut number = colouring.colouring().next_difference(wanted, 0);
    'changed: while number < size.area() {
        fill_cell(colouring, heads, next, counts, wanted.cell(number), number);
        number = colouring.colouring().next_difference(wanted, number + 1);
    }
    prove!(wanted.size().area() <= MAX_POINTS);
    prove!(colouring.size().area() <= MAX_POINTS);
}

// Whether the point holds a stone whose chain has no liberty.
fn lacks_liberty(colouring: &KeyedColouring, heads: &[u16], counts: &[u32], number: usize) -> bool
    requires heads_full { length heads.now ≡ MAX_POINTS }
    requires counts_full { length counts.now ≡ MAX_POINTS }
    requires tells { TellsLiberties (side_of colouring.now) colouring.now heads.now counts.now }
    requires on { number < side_of colouring.now * side_of colouring.now }
    ensures { result ≡ lacks_liberty_of (side_of colouring.now) colouring.now number }
{
    prove!(colouring.size().area() <= MAX_POINTS);
    let head = heads[number];
    head != MAX_POINTS as u16 && counts[head as usize] == 0
}

// Whether the chain of the point and the chains of the points beside it have liberties.
fn live_around(colouring: &KeyedColouring, heads: &[u16], counts: &[u32], number: usize) -> bool
    requires heads_full { length heads.now ≡ MAX_POINTS }
    requires counts_full { length counts.now ≡ MAX_POINTS }
    requires tells { TellsLiberties (side_of colouring.now) colouring.now heads.now counts.now }
    requires on { number < side_of colouring.now * side_of colouring.now }
    ensures { IsTrue result → LivesAround (side_of colouring.now) colouring.now number }
{
    let size = colouring.size();
    if lacks_liberty(colouring, heads, counts, number) {
        return false;
    }
    let neighbours = size.point_at(number).neighbours(size);
    for neighbour in neighbours.as_slice() {
        if lacks_liberty(colouring, heads, counts, neighbour.number(size)) {
            return false;
        }
    }
    true
}

// Whether all chains have liberties at and beside the stones that another colouring does not hold, as far as a look at a few of
// those stones tells.
fn live_where_new(
    colouring: &KeyedColouring,
    heads: &[u16],
    counts: &[u32],
    before: &Colouring,
) -> bool
    requires heads_full { length heads.now ≡ MAX_POINTS }
    requires counts_full { length counts.now ≡ MAX_POINTS }
    requires tells { TellsLiberties (side_of colouring.now) colouring.now heads.now counts.now }
    requires same_size { side_of before.now ≡ side_of colouring.now }
    ensures { IsTrue result → LivesWhereNew (side_of colouring.now) before.now colouring.now }
{
    let size = colouring.size();
    prove!(size.area() <= MAX_POINTS);
    let mut number = colouring.colouring().next_difference(before, 0);
    let mut left = FEW;
    'changed: while number < size.area() {
        if left == 0 {
            return false;
        }
        left -= 1;
        if heads[number] != MAX_POINTS as u16 && !live_around(colouring, heads, counts, number) {
            return false;
        }
        number = colouring.colouring().next_difference(before, number + 1);
    }
    true
}

// The least point whose chain has no liberty.
fn find_without_liberty(colouring: &KeyedColouring, heads: &[u16], counts: &[u32]) -> Option<Point>
    requires heads_full { length heads.now ≡ MAX_POINTS }
    requires counts_full { length counts.now ≡ MAX_POINTS }
    requires tells { TellsLiberties (side_of colouring.now) colouring.now heads.now counts.now }
    ensures found { IfSome result
        (λ p. first_without_liberty (side_of colouring.now) colouring.now
        ≡ Some (number_of (side_of colouring.now) p)) }
    ensures on_board { IfSome result (λ p. IsOn (side_of colouring.now) p) }
    ensures none { IfNone result
        (first_without_liberty (side_of colouring.now) colouring.now ≡ None) }
{
    let size = colouring.size();
    prove!(size.area() <= MAX_POINTS);
    for number in 0..size.area() {
        if lacks_liberty(colouring, heads, counts, number) {
            return Some(size.point_at(number));
        }
    }
    None
}

// Like `find_without_liberty`, for a caller that had another colouring in which all chains had liberties: a chain that has none now
// is at or beside a new stone.
fn find_after(
    colouring: &KeyedColouring,
    heads: &[u16],
    counts: &[u32],
    before: &Colouring,
) -> Option<Point>
    requires heads_full { length heads.now ≡ MAX_POINTS }
    requires counts_full { length counts.now ≡ MAX_POINTS }
    requires tells { TellsLiberties (side_of colouring.now) colouring.now heads.now counts.now }
    requires same_size { side_of before.now ≡ side_of colouring.now }
    requires lived { first_without_liberty (side_of before.now) before.now ≡ None }
    ensures found { IfSome result
        (λ p. first_without_liberty (side_of colouring.now) colouring.now
        ≡ Some (number_of (side_of colouring.now) p)) }
    ensures on_board { IfSome result (λ p. IsOn (side_of colouring.now) p) }
    ensures none { IfNone result
        (first_without_liberty (side_of colouring.now) colouring.now ≡ None) }
{
    if live_where_new(colouring, heads, counts, before) {
        return None;
    }
    find_without_liberty(colouring, heads, counts)
}

// Makes the board hold the other colouring, whether or not each of its chains has a liberty.
fn change_to(
    colouring: &mut KeyedColouring,
    heads: &mut [u16],
    next: &mut [u16],
    counts: &mut [u32],
    wanted: &Colouring,
)
    requires settled { IsSettled (side_of colouring.old) colouring.old heads.old next.old
        counts.old }
    requires same_size { side_of wanted.now ≡ side_of colouring.old }
    ensures settled { IsSettled (side_of colouring.old) colouring.new heads.new next.new
        counts.new }
    ensures value { colouring.new ≡ wanted.now }
{
    remove_changed(colouring, heads, next, counts, wanted);
    fill_changed(colouring, heads, next, counts, wanted);
}

/// Takes over the colouring, or returns the least point whose chain would have no liberty.
pub(crate) fn take_over(
    colouring: &mut KeyedColouring,
    heads: &mut [u16],
    next: &mut [u16],
    counts: &mut [u32],
    wanted: &Colouring,
) -> Result<(), NoLiberty>
    requires board { IsBoard (side_of colouring.old) colouring.old heads.old next.old counts.old }
    requires same_size { side_of wanted.now ≡ side_of colouring.old }
    ensures board { IsBoard (side_of colouring.old) colouring.new heads.new next.new counts.new }
    ensures ok { OnOk result (colouring.new ≡ wanted.now) }
    ensures liberties { OnOk result (first_without_liberty (side_of wanted.now) wanted.now ≡ None) }
    ensures fault { IfErr result
        (λ e. first_without_liberty (side_of wanted.now) wanted.now
        ≡ Some (number_of (side_of wanted.now) e.point)) }
    ensures fault_on_board { IfErr result (λ e. IsOn (side_of wanted.now) e.point) }
    ensures err { OnErr result (colouring.new ≡ colouring.old) }
{
    prove!(colouring.size().area() <= MAX_POINTS);
    let before = *colouring.colouring();
    change_to(colouring, heads, next, counts, wanted);
    match find_after(colouring, heads, counts, &before) {
        None => Ok(()),
        Some(point) => {
            change_to(colouring, heads, next, counts, &before);
            Err(NoLiberty { point })
        }
    }
}

/// Takes over a colouring in which every chain has a liberty. Nothing is asked about liberties.
pub(crate) fn restore(
    colouring: &mut KeyedColouring,
    heads: &mut [u16],
    next: &mut [u16],
    counts: &mut [u32],
    wanted: &Colouring,
)
    requires board { IsBoard (side_of colouring.old) colouring.old heads.old next.old counts.old }
    requires same_size { side_of wanted.now ≡ side_of colouring.old }
    requires liberties { first_without_liberty (side_of wanted.now) wanted.now ≡ None }
    ensures board { IsBoard (side_of colouring.old) colouring.new heads.new next.new counts.new }
    ensures value { colouring.new ≡ wanted.now }
{
    prove!(colouring.size().area() <= MAX_POINTS);
    change_to(colouring, heads, next, counts, wanted);
}
