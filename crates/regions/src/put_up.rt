//! Placing stones outside a region.

ghost use Rattle.std.specs.Prelude.{◌≡◌, ◌*◌, ◌<◌, ◌&&◌, not, IfOk};
ghost use Rattle.go_points.specs.Grid.{side_of};
ghost use Rattle.regions.specs.PutUp.{IsPutUp, cell_put, is_put};

use crate::place::neighbours;
use crate::position::Position;
use crate::sets::common;
use go_points::{Cell, Colour, Colouring, MAX_POINTS, PointSet};
use std::alloc::{AllocError, Global};

/// A position with stones that were placed, and where they are.
#[derive(Drop)]
pub(crate) struct PutUp {
    pub(crate) position: Position,
    pub(crate) points: PointSet,
}

/// Whether a stone is placed at the point with this number.
fn is_put(before: &Colouring, inside: &PointSet, points: &PointSet, number: usize) -> bool
    requires { number < side_of before.now * side_of before.now }
    ensures { result ≡ is_put inside.now points.now before.now number }
{
    let point = before.size().point_at(number);
    points.has(point) && !inside.has(point) && before.cell(number).is_empty()
}

/// What the point with this number holds afterwards.
fn cell_put(
    before: &Colouring,
    inside: &PointSet,
    points: &PointSet,
    colour: Colour,
    number: usize,
) -> Cell
    requires { number < side_of before.now * side_of before.now }
    ensures { result ≡ cell_put inside.now points.now colour before.now number }
{
    if is_put(before, inside, points, number) {
        Cell::Stone(colour)
    } else {
        before.cell(number)
    }
}

/// The colouring with stones of this colour at those of the points that are empty and not inside.
fn with_stones(
    before: &Colouring,
    inside: &PointSet,
    points: &PointSet,
    colour: Colour,
) -> Colouring
    ensures { IsPutUp inside.now points.now colour before.now result }
{
    let size = before.size();
    let mut after = *before;
    for number in 0..size.area() {
        let cell = cell_put(before, inside, points, colour, number);
        prove!(after.size().rows() == size.rows());
        after.set(size.point_at(number), cell);
    }
    after
}

/// The position with stones of this colour at the points, without those that would leave a chain without a liberty: while there is
/// such a chain, the placed stones that belong to it are taken back, or, if there are none, those beside it.
pub(crate) fn put_up(
    alloc: Global,
    before: &Colouring,
    inside: &PointSet,
    points: PointSet,
    colour: Colour,
) -> Result<PutUp, AllocError>
    ensures { IfOk result
        (λ p. IsPutUp inside.now p.points colour before.now p.position.colouring) }
{
    let mut points = points;
    for _ in 0..MAX_POINTS {
        let position = Position::new(alloc, &with_stones(before, inside, &points, colour))?;
        let fewer = taken_back(&position, &points);
        if points.is_empty() || fewer.len() == points.len() {
            return Ok(PutUp { position, points });
        }
        points = fewer;
    }
    let none = PointSet::new();
    let position = Position::new(alloc, &with_stones(before, inside, &none, colour))?;
    Ok(PutUp {
        position,
        points: none,
    })
}

/// The points without those to be taken back.
fn taken_back(position: &Position, points: &PointSet) -> PointSet {
    let mut left = *points;
    for chain in position.chains() {
        if chain.liberties.is_empty() {
            let own = common(&chain.stones, &left);
            if own.is_empty() {
                take_beside(position, &chain.stones, &mut left);
            } else {
                take(&own, &mut left);
            }
        }
    }
    left
}

/// Removes the points from the set.
fn take(points: &PointSet, set: &mut PointSet) {
    for point in points.iter() {
        set.remove(point);
    }
}

/// Removes the points beside these stones from the set.
fn take_beside(position: &Position, stones: &PointSet, set: &mut PointSet) {
    for stone in stones.iter() {
        for near in neighbours(position.size(), stone) {
            set.remove(near);
        }
    }
}
