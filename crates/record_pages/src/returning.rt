//! Earlier positions that may come back.

ghost use Rattle.go_points.specs.Place.{IsOn};
ghost use Rattle.go_points.specs.Grid.{side_of};

use go_chains::ChainBoard;
use go_points::{Cell, Colouring, Point, PointSet};
use std::alloc::{AllocError, Global};
use target_game::Problem;

/// The points that play in the region cannot change: the empty points outside, and the stones of chains that have a liberty
/// outside, which nobody can fill.
fn settled(problem: &Problem, board: &ChainBoard) -> PointSet {
    let size = board.size();
    let mut points = PointSet::new();
    for number in 0..size.area() {
        let point = size.point_at(number);
        if is_settled(problem, board, point) {
            points.insert(point);
        }
    }
    points
}

fn is_settled(problem: &Problem, board: &ChainBoard, point: Point) -> bool
    requires { IsOn (side_of board.now) point }
{
    if board.cell(point) == Cell::Empty {
        return !problem.region().has(point);
    }
    let Some(liberties) = board.liberties(point) else {
        return false;
    };
    for liberty in liberties.iter() {
        if !problem.region().has(liberty) {
            return true;
        }
    }
    false
}

/// Whether both boards hold the same at these points.
fn agree(first: &Colouring, second: &Colouring, points: &PointSet) -> bool {
    for number in 0..first.size().area() {
        let is_asked = points.has(first.size().point_at(number));
        if is_asked && number < second.size().area() && first.cell(number) != second.cell(number) {
            return false;
        }
    }
    true
}

/// The earlier positions of the problem that play in its region may bring back, and which are therefore barred. Some that are named
/// may be impossible to bring back; one that is not named certainly is.
pub fn may_return(alloc: Global, problem: &Problem) -> Result<Vec<Colouring>, AllocError> {
    let mut found = Vec::new(alloc);
    let present = problem.colouring();
    let Ok(board) = ChainBoard::from_colouring(present) else {
        return Ok(found);
    };
    let points = settled(problem, &board);
    for past in problem.history() {
        if past != present && agree(present, past, &points) {
            found.push(*past)?;
        }
    }
    Ok(found)
}
