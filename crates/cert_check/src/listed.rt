//! Listed colourings, which ascend.

ghost use Rattle.std.specs.Prelude.{◌≡◌, ◌<◌, ◌≤◌, ◌∷◌, ℕ, IsTrue, List, Some, drop, false, length, slice_get, true};
ghost use Rattle.std.specs.List.{list_all};
ghost use Rattle.go_points.specs.Grid.{same_cells};
ghost use Rattle.go_points.specs.declared.Cell.{Cell};
ghost use Rattle.go_turns.specs.History.{has_occurred};
ghost use Rattle.cert_check.specs.Private.Ascending.{Ascends, apart, comes_before, is_it};

use go_points::{Colouring, ColouringList};

/// If a list is shorter than another by this factor, its colourings are looked up in the other one by one.
const MUCH_SHORTER: usize = 16;

/// So many colourings are looked at one by one, since testing two colourings for equality is faster than ordering them.
const FEW: usize = 32;

/// Whether the colouring is on the list: by binary search, from `low` up to, but not including, `high`, until few are left.
pub(crate) fn stands_on(colouring: &Colouring, list: &ColouringList) -> bool
    requires { Ascends list.now }
    ensures { result ≡ has_occurred list.now colouring.now }
{
    let mut low = 0;
    let mut high = list.len();
    'halving: while high.saturating_sub(low) > FEW {
        let middle = low + (high - low) / 2;
        let order = list.at(middle).cmp(colouring);
        if order.is_eq() {
            return true;
        }
        if order.is_lt() {
            low = middle + 1;
        } else {
            high = middle;
        }
    }
    is_among(colouring, list, low, high)
}

/// Whether the colouring is at a place of the list from `low` up to, but not including, `high`, by looking at each.
fn is_among(colouring: &Colouring, list: &ColouringList, low: usize, high: usize) -> bool
    requires { high ≤ length list.now }
    ensures found { IsTrue result → has_occurred list.now colouring.now ≡ true }
    ensures none { result ≡ false → (k : ℕ) (other : List Cell) → low ≤ k → k < high
        → slice_get list.now k ≡ Some other → same_cells colouring.now other ≡ false }
{
    for index in low..high {
        if list.is_at(index, colouring) {
            return true;
        }
    }
    false
}

/// Whether each of the colourings is on the list.
pub(crate) fn all_stand_on(few: &ColouringList, list: &ColouringList) -> bool
    requires few { Ascends few.now }
    requires list { Ascends list.now }
    ensures { result ≡ list_all (has_occurred list.now) few.now }
{
    if few.len() < list.len() / MUCH_SHORTER {
        all_found(few, list)
    } else {
        all_passed(few, list)
    }
}

/// Whether each of the colourings is on the list, by a binary search for each.
fn all_found(few: &ColouringList, list: &ColouringList) -> bool
    requires { Ascends list.now }
    ensures { result ≡ list_all (has_occurred list.now) few.now }
{
    for index in 0..few.len() {
        if !stands_on(&few.at(index), list) {
            return false;
        }
    }
    true
}

/// Whether each of the colourings is on the list, by one pass over both.
fn all_passed(few: &ColouringList, list: &ColouringList) -> bool
    requires few { Ascends few.now }
    requires list { Ascends list.now }
    ensures { result ≡ list_all (has_occurred list.now) few.now }
{
    let mut place = 0;
    let mut wanted = few.get(place);
    for index in 0..list.len() {
        let Some(colouring) = &wanted else {
            return true;
        };
        if list.is_at(index, colouring) {
            place += 1;
            wanted = few.get(place);
        }
    }
    wanted.is_none()
}

/// Whether the colouring is at this place of the list.
pub(crate) fn stands_at(list: &[Colouring], place: usize, colouring: &Colouring) -> bool
    ensures { result ≡ is_it (slice_get list.now place) colouring.now }
{
    match list.get(place) {
        Some(found) => found == colouring,
        None => false,
    }
}

/// Whether there is a colouring at this place of the list that is before this one.
fn stands_before(list: &[Colouring], place: usize, colouring: &Colouring) -> bool
    ensures { result ≡ comes_before (slice_get list.now place) colouring.now }
{
    match list.get(place) {
        Some(found) => found.cmp(colouring).is_lt(),
        None => false,
    }
}

/// The first place, at or after this one, that has no colouring before the given one. The colourings that are passed over are on no
/// list that ascends from the given one.
pub(crate) fn skip_before(list: &[Colouring], colouring: &Colouring, from: usize) -> usize
    ensures next { comes_before (slice_get list.now result) colouring.now ≡ false }
    ensures passed { (rest : List (List Cell)) → Ascends (colouring.now ∷ rest)
        → apart (drop result list.now) (colouring.now ∷ rest)
        ≡ apart (drop from list.now) (colouring.now ∷ rest) }
{
    let mut place = from;
    'skipping: while stands_before(list, place, colouring) {
        place += 1;
    }
    place
}

/// Whether none of the colourings, which ascend, is on the list.
pub(crate) fn are_apart(few: &[Colouring], list: &ColouringList) -> bool
    requires few { Ascends few.now }
    requires list { Ascends list.now }
    ensures { result ≡ apart few.now list.now }
{
    if few.len() < list.len() / MUCH_SHORTER {
        none_stands_on(few, list)
    } else {
        none_met(few, list)
    }
}

/// Whether none of the colourings, which may be in any order, is on the list, by a binary search for each.
pub(crate) fn none_stands_on(few: &[Colouring], list: &ColouringList) -> bool
    requires { Ascends list.now }
    ensures { result ≡ apart few.now list.now }
{
    for colouring in few {
        if stands_on(colouring, list) {
            return false;
        }
    }
    true
}

/// Whether none of the colourings is on the list, by one pass over both.
fn none_met(few: &[Colouring], list: &ColouringList) -> bool
    requires few { Ascends few.now }
    requires list { Ascends list.now }
    ensures { result ≡ apart few.now list.now }
{
    let mut place = 0;
    for index in 0..list.len() {
        let colouring = list.at(index);
        place = skip_before(few, &colouring, place);
        if stands_at(few, place, &colouring) {
            return false;
        }
    }
    true
}
