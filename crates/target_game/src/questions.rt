//! The questions that a problem is asked before it is one.

ghost use Rattle.std.specs.Prelude.{◌≡◌, ◌≢◌, ◌*◌, ◌<◌, [], map, length, nat_eq, slice_index_or, IsTrue, IsFalse, MatchResult, Some, None};
ghost use Rattle.std.specs.List.{All, list_all};
ghost use Rattle.go_points.specs.Grid.{cell_at, same_cell, side_of};
ghost use Rattle.go_points.specs.Liberty.{all_reach_empty};
ghost use Rattle.go_points.specs.Place.{Place, IsOn, on_board, number_of};
ghost use Rattle.go_points.specs.Points.{holds_place};
ghost use Rattle.target_game.specs.Problem.{one_colour, first_refusal, refusals};

use crate::MAX_HISTORY;
use crate::bad_problem::BadProblem;
use crate::repeated::stand_twice;
use go_points::{Cell, Colour, Colouring, PointSet, Size};
use go_turns::{Board, PlayBoard};

/// As many points are asked as fast as two colourings are compared.
const FEW_POINTS: usize = 16;

/// Whether each colouring is of this size.
fn are_of_size(history: &[Colouring], size: Size) -> bool
    ensures sides { IsTrue result → All (λ c. side_of c ≡ size) history.now }
    ensures value { result ≡ list_all (λ c. nat_eq (length c) (size * size)) history.now }
{
    for colouring in history {
        if colouring.size() != size {
            return false;
        }
    }
    true
}

/// Whether the board has each point of the set.
fn are_on_board(points: &PointSet, size: Size) -> bool
    ensures members { IsTrue result → All (IsOn size) points.now }
    ensures value { result ≡ list_all (on_board size) points.now }
{
    for point in points.iter() {
        if !size.holds(point) {
            return false;
        }
    }
    true
}

/// Whether each of the points holds the cell.
pub fn all_hold(colouring: &Colouring, points: &PointSet, cell: Cell) -> bool
    requires { All (IsOn (side_of colouring.now)) points.now }
    ensures { result ≡ list_all
        (λ p. same_cell (cell_at colouring.now (number_of (side_of colouring.now) p)) cell)
        points.now }
{
    for point in points.iter() {
        if colouring.get(point) != cell {
            return false;
        }
    }
    true
}

/// Whether there are so many points that all of them are asked slower than those where two colourings differ. It is a hint, and
/// promises nothing.
pub(crate) fn has_many(points: &PointSet) -> bool {
    points.len() > FEW_POINTS
}

/// Whether two colourings differ at one of the points. Only the points where they differ are looked at.
pub(crate) fn differ_at(colouring: &Colouring, other: &Colouring, points: &PointSet) -> bool
    requires { side_of other.now ≡ side_of colouring.now }
    ensures same { IsFalse result → (p : Place) → IsOn (side_of colouring.now) p
        → IsTrue (holds_place points.now p)
        → cell_at colouring.now (number_of (side_of colouring.now) p)
        ≡ cell_at other.now (number_of (side_of colouring.now) p) }
    ensures differs { IsTrue result → (p : Place) × IsTrue (holds_place points.now p)
        × (cell_at colouring.now (number_of (side_of colouring.now) p)
        ≢ cell_at other.now (number_of (side_of colouring.now) p)) }
{
    let size = colouring.size();
    let mut number = colouring.next_difference(other, 0);
    'changed: while number < size.area() {
        if points.has(size.point_at(number)) {
            return true;
        }
        number = colouring.next_difference(other, number + 1);
    }
    false
}

/// The colour of the stones at these points. `None` unless there is at least one point and all hold stones of one colour.
pub fn colour_at(colouring: &Colouring, points: &PointSet) -> Option<Colour>
    requires { All (IsOn (side_of colouring.now)) points.now }
    ensures { result ≡ one_colour
        (map (λ p. cell_at colouring.now (number_of (side_of colouring.now) p)) points.now) }
{
    let first = points.first()?;
    let Cell::Stone(colour) = colouring.get(first) else {
        return None;
    };
    if all_hold(colouring, points, Cell::Stone(colour)) {
        Some(colour)
    } else {
        None
    }
}

/// Whether every stone of each colouring reaches empty.
fn have_liberties(history: &[Colouring], size: Size) -> bool
    requires { All (λ c. side_of c ≡ size) history.now }
    ensures { result ≡ list_all (all_reach_empty size) history.now }
{
    let mut board = PlayBoard::new(size);
    for colouring in history {
        if board.assign(colouring).is_err() {
            return false;
        }
    }
    true
}

/// The defender's colour, or the first refusal.
pub(crate) fn defender_of(
    history: &[Colouring],
    size: Size,
    place: usize,
    passes: u64,
    targets: &PointSet,
    region: &PointSet,
) -> Result<Colour, BadProblem>
    ensures { MatchResult result
        (λ x. (first_refusal (refusals size history.now place passes targets.now region.now) ≡ None)
        × (one_colour (map (λ p. cell_at (slice_index_or history.now place []) (number_of size p))
        targets.now) ≡ Some x))
        (λ e. first_refusal (refusals size history.now place passes targets.now region.now)
        ≡ Some e) }
{
    if !are_of_size(history, size) || !are_on_board(targets, size) || !are_on_board(region, size) {
        return Err(BadProblem::OtherSize);
    }
    if place >= history.len() {
        return Err(BadProblem::BadPlace);
    }
    let Some(defender) = colour_at(&history[place], targets) else {
        return Err(BadProblem::BadTargets);
    };
    if passes >= 2 {
        return Err(BadProblem::Ended);
    }
    if region.is_empty() {
        return Err(BadProblem::EmptyRegion);
    }
    if history.len() > MAX_HISTORY {
        return Err(BadProblem::LongHistory);
    }
    if !have_liberties(history, size) {
        return Err(BadProblem::NoLiberty);
    }
    if stand_twice(history) {
        return Err(BadProblem::Repeated);
    }
    Ok(defender)
}
