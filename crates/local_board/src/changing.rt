//! Which points of a problem can change.

use go_points::{Cell, Colouring, Point, Size};
use std::alloc::{AllocError, Global};
use target_game::Problem;

/// Whether each point can change, in the order of the points: it is in the region, or holds a stone of a chain that has no
/// empty point outside the region beside it.
pub(crate) fn changing_points(alloc: Global, problem: &Problem) -> Result<Vec<bool>, AllocError> {
    let size = problem.size();
    let lasting = lasting_stones(alloc, problem)?;
    let mut changing = Vec::with_capacity(alloc, size.area())?;
    for number in 0..size.area() {
        let is_stone = !cell_of(problem, number).is_empty();
        let lasts = lasting.get(number).copied() == Some(true);
        changing.push(is_inside(problem, number) || is_stone && !lasts)?;
    }
    Ok(changing)
}

/// How many points of the problem can change. The time is linear in the number of points.
pub fn count_changing(alloc: Global, problem: &Problem) -> Result<usize, AllocError> {
    let changing = changing_points(alloc, problem)?;
    let mut count: usize = 0;
    for changes in changing.as_slice() {
        if *changes {
            count = count.saturating_add(1);
        }
    }
    Ok(count)
}

/// Whether each point holds a stone of a chain that has an empty point outside the region beside it.
fn lasting_stones(alloc: Global, problem: &Problem) -> Result<Vec<bool>, AllocError> {
    let size = problem.size();
    let mut lasting = Vec::with_capacity(alloc, size.area())?;
    let mut due = Vec::new(alloc);
    for number in 0..size.area() {
        let lasts = !cell_of(problem, number).is_empty() && has_outer_liberty(problem, number);
        lasting.push(lasts)?;
        if lasts {
            due.push(number)?;
        }
    }
    for _ in 0..u64::MAX {
        let Some(number) = due.pop() else {
            return Ok(lasting);
        };
        add_own(problem, number, &mut lasting, &mut due)?;
    }
    Ok(lasting)
}

/// Adds the stones beside this one that are of its colour.
fn add_own(
    problem: &Problem,
    number: usize,
    lasting: &mut Vec<bool>,
    due: &mut Vec<usize>,
) -> Result<(), AllocError> {
    let own = cell_of(problem, number);
    for place in 0..4usize {
        if let Some(beside) = neighbour(problem.size(), number, place) {
            if cell_of(problem, beside) == own && beside < lasting.len() && !lasting[beside] {
                lasting[beside] = true;
                due.push(beside)?;
            }
        }
    }
    Ok(())
}

/// Whether an empty point outside the region is beside the point.
fn has_outer_liberty(problem: &Problem, number: usize) -> bool {
    for place in 0..4usize {
        if let Some(beside) = neighbour(problem.size(), number, place) {
            if cell_of(problem, beside).is_empty() && !is_inside(problem, beside) {
                return true;
            }
        }
    }
    false
}

/// One of the points beside a point, of which there are at most four, by its place among them.
pub(crate) fn neighbour(size: Size, number: usize, place: usize) -> Option<usize> {
    if number >= size.area() {
        return None;
    }
    let around = size.point_at(number).neighbours(size);
    let beside: Point = around.as_slice().get(place).copied()?;
    if size.holds(beside) {
        Some(beside.number(size))
    } else {
        None
    }
}

/// What the point with this number holds in the problem.
pub(crate) fn cell_of(problem: &Problem, number: usize) -> Cell {
    cell_at(problem.colouring(), number)
}

fn cell_at(colouring: &Colouring, number: usize) -> Cell {
    if number < colouring.size().area() {
        colouring.cell(number)
    } else {
        Cell::Empty
    }
}

/// Whether the point is in the region.
pub(crate) fn is_inside(problem: &Problem, number: usize) -> bool {
    let size = problem.size();
    number < size.area() && problem.region().has(size.point_at(number))
}

/// Whether the point is a target.
pub(crate) fn is_target(problem: &Problem, number: usize) -> bool {
    let size = problem.size();
    number < size.area() && problem.targets().has(size.point_at(number))
}
