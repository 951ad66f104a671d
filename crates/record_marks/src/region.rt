//! The region that is proposed for a target.

ghost use Rattle.go_points.specs.Grid.{side_of};
ghost use Rattle.go_points.specs.Place.{IsOn};
ghost use Rattle.record_marks.specs.Asked.{AreWhole};
ghost use Rattle.record_marks.specs.Private.Sets.{HoldsBoth};

use go_chains::ChainBoard;
use go_points::{Cell, Colour, Point, PointSet, Size};

/// The targets with all stones of their chains.
pub(crate) fn whole_chains(board: &ChainBoard, targets: &PointSet) -> PointSet
    ensures { AreWhole board.now targets.now result }
{
    let size = board.size();
    let mut whole = PointSet::new();
    for number in 0..size.area() {
        let point = size.point_at(number);
        if targets.has(point) {
            if let Some(chain) = board.chain_of(point) {
                whole = joined(size, &whole, &chain);
            }
        }
    }
    whole
}

/// The points of both sets.
fn joined(size: Size, first: &PointSet, second: &PointSet) -> PointSet
    ensures { HoldsBoth size first.now second.now result }
{
    let mut all = *first;
    for number in 0..size.area() {
        let point = size.point_at(number);
        if second.has(point) {
            all.insert(point);
        }
    }
    all
}

/// Whether a point beside this one is in the set.
pub fn touches(size: Size, point: Point, set: &PointSet) -> bool
    requires { IsOn size point }
{
    for near in point.neighbours(size) {
        if set.has(near) {
            return true;
        }
    }
    false
}

/// The set with the points beside it that are empty or hold this colour.
fn grown(board: &ChainBoard, colour: Colour, set: &PointSet) -> PointSet {
    let size = board.size();
    let mut more = *set;
    for number in 0..size.area() {
        let point = size.point_at(number);
        if board.cell(point) != Cell::Stone(colour.opponent()) && touches(size, point, set) {
            more.insert(point);
        }
    }
    more
}

/// Whether all liberties of the chain at this point are in the set.
fn is_shut_in(board: &ChainBoard, point: Point, set: &PointSet) -> bool
    requires { IsOn (side_of board.now) point }
{
    let Some(liberties) = board.liberties(point) else {
        return false;
    };
    let size = board.size();
    for number in 0..size.area() {
        let liberty = size.point_at(number);
        if liberties.has(liberty) && !set.has(liberty) {
            return false;
        }
    }
    true
}

/// The region that is proposed for targets of this colour: the empty points and the colour's other stones that the
/// targets reach through such points, and the other colour's chains that have no liberty elsewhere.
///
/// If the targets are not shut in, that is a large part of the board.
pub(crate) fn proposed_region(board: &ChainBoard, colour: Colour, targets: &PointSet) -> PointSet {
    let size = board.size();
    let reached = reached_from(board, colour, targets);
    let mut region = PointSet::new();
    for number in 0..size.area() {
        let point = size.point_at(number);
        if is_wanted(board, colour, point, targets, &reached) {
            region.insert(point);
        }
    }
    region
}

/// The targets, and what they reach through empty points and the colour's other stones.
fn reached_from(board: &ChainBoard, colour: Colour, targets: &PointSet) -> PointSet {
    let mut reached = *targets;
    for _ in 0..board.size().area() {
        let more = grown(board, colour, &reached);
        if more.len() == reached.len() {
            break;
        }
        reached = more;
    }
    reached
}

/// Whether the point belongs to the region.
fn is_wanted(
    board: &ChainBoard,
    colour: Colour,
    point: Point,
    targets: &PointSet,
    reached: &PointSet,
) -> bool
    requires { IsOn (side_of board.now) point }
{
    if board.cell(point) == Cell::Stone(colour.opponent()) {
        return is_shut_in(board, point, reached);
    }
    reached.has(point) && !targets.has(point)
}
