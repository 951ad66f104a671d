//! By what a group lives by its shape, for a reader: points of two eyes, or a liberty at which nobody may play.

use crate::shown::Note;
use go_chains::ChainBoard;
use go_points::{Colouring, Point, PointSet, Size};
use pass_alive::{are_members, areas_of, is_near, living_stones, put_in};
use target_game::Problem;

/// By what the chain of the first target lives in this colouring.
pub(crate) fn life_in(problem: &Problem, colouring: &Colouring) -> Note {
    match ChainBoard::from_colouring(colouring) {
        Ok(board) => life_on(problem, &board),
        Err(_) => Note::Lives,
    }
}

fn life_on(problem: &Problem, board: &ChainBoard) -> Note {
    let Some(chain) = target_chain(problem, board) else {
        return Note::Lives;
    };
    if let Some((first, second)) = two_eyes(problem, board, &chain) {
        return Note::Eyes(first, second);
    }
    match fixed_liberty(board, problem.region(), &chain) {
        Some(point) => Note::Liberty(point),
        None => Note::Lives,
    }
}

/// The chain of the first target.
fn target_chain(problem: &Problem, board: &ChainBoard) -> Option<PointSet> {
    chain_at(board, problem.targets().first()?)
}

/// The chain at the point. `None` if it is empty, or the board does not have it.
fn chain_at(board: &ChainBoard, point: Point) -> Option<PointSet> {
    if board.size().holds(point) {
        board.chain_of(point)
    } else {
        None
    }
}

/// The least empty points of two eyes of the chain that living stones enclose.
fn two_eyes(problem: &Problem, board: &ChainBoard, chain: &PointSet) -> Option<(Point, Point)> {
    let defender = problem.defender();
    let living = living_stones(board, defender, problem.region());
    let areas = areas_of(board, defender)?;
    let mut seen = PointSet::new();
    let first = next_eye(board, &areas, &living, chain, &mut seen)?;
    let second = next_eye(board, &areas, &living, chain, &mut seen)?;
    Some((first, second))
}

/// The least empty point of an area that has not been seen and is an eye of the chain. The areas on the way are then seen.
fn next_eye(
    board: &ChainBoard,
    areas: &ChainBoard,
    living: &PointSet,
    chain: &PointSet,
    seen: &mut PointSet,
) -> Option<Point> {
    let size = board.size();
    for number in 0..size.area() {
        let point = size.point_at(number);
        if board.cell(point).is_empty() && !seen.has(point) && is_near(size, point, chain) {
            let area = chain_at(areas, point)?;
            put_in(seen, &area);
            if is_eye(areas, &area, point, living, chain) {
                return Some(point);
            }
        }
    }
    None
}

/// Whether the area of the point is an eye: each of its points is beside the chain, and living stones are all around it.
fn is_eye(
    areas: &ChainBoard,
    area: &PointSet,
    point: Point,
    living: &PointSet,
    chain: &PointSet,
) -> bool {
    match stones_around(areas, point) {
        Some(around) => are_beside(areas.size(), area, chain) && are_members(&around, living),
        None => false,
    }
}

/// The stones around the area of the point.
fn stones_around(areas: &ChainBoard, point: Point) -> Option<PointSet> {
    if areas.size().holds(point) {
        areas.liberties(point)
    } else {
        None
    }
}

/// The least empty point beside the chain that is no point of the region.
fn fixed_liberty(board: &ChainBoard, region: &PointSet, chain: &PointSet) -> Option<Point> {
    let size = board.size();
    for number in 0..size.area() {
        let point = size.point_at(number);
        if board.cell(point).is_empty() && !region.has(point) && is_near(size, point, chain) {
            return Some(point);
        }
    }
    None
}

/// Whether each point of the area is adjacent to a stone of the chain.
fn are_beside(size: Size, area: &PointSet, chain: &PointSet) -> bool {
    for point in area.iter() {
        if !size.holds(point) || !is_near(size, point, chain) {
            return false;
        }
    }
    true
}
