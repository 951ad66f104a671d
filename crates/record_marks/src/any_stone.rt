//! The problem of some stone at a node of a record, for who asks about the position and not about that stone.

use crate::marking::chosen_place;
use crate::stone_problem_of::{NoStone, point_problem};
use go_chains::ChainBoard;
use go_points::{Colour, Point, Size, Turn};
use sgf_text::{SgfNode, Tree};
use std::alloc::Global;
use target_game::Problem;
use tsumego_problem::{ProblemFault, assigned, board_size, has_setup, turn_at};

/// The problem of the first stone at the node of the main line with this number, by default at that of `default_node`: the position
/// with its past, and the whole board as the region.
///
/// The game is replayed once on a board alone, which shows where a stone is, and once with its past.
pub fn position_problem(
    alloc: Global,
    tree: &Tree,
    node: Option<usize>,
) -> Result<Problem, NoStone> {
    let Some(size) = board_size(&tree.nodes()[0]) else {
        return Err(NoStone::NoProblem(ProblemFault::Size));
    };
    let Some(corner) = size.point(0, 0) else {
        return Err(NoStone::NoPoint);
    };
    let place = chosen_place(tree, node);
    let stone = match board_at(size, tree, place) {
        Some(board) => first_stone(&board),
        None => None,
    };
    // Where there is no stone, any point has the refusal told.
    point_problem(alloc, tree, place, stone.unwrap_or(corner))
}

/// The board at the node of the main line with this number. `None` if there is no such node, or if the board alone shows that what the
/// nodes say cannot be done.
fn board_at(size: Size, tree: &Tree, place: usize) -> Option<ChainBoard> {
    let mut board = ChainBoard::new(size);
    let mut part = tree;
    let mut left = place;
    loop {
        let nodes = part.nodes();
        if left < nodes.len() {
            if change_by_all(&mut board, &nodes[..left + 1]) {
                return Some(board);
            }
            return None;
        }
        if !change_by_all(&mut board, nodes) {
            return None;
        }
        left = left.saturating_sub(nodes.len());
        let Some(child) = part.children().first() else {
            return None;
        };
        part = child;
    }
}

/// Does what these nodes say, one after another. Returns whether that can be done.
fn change_by_all(board: &mut ChainBoard, nodes: &[SgfNode]) -> bool {
    for node in nodes {
        if !change_by(board, node) {
            return false;
        }
    }
    true
}

/// Plays the turn of the node, or else sets up its stones. Returns whether that can be done.
fn change_by(board: &mut ChainBoard, node: &SgfNode) -> bool {
    match turn_at(board.size(), node) {
        Some(played) => play(board, played.0, played.1),
        None => set_up(board, node),
    }
}

/// Plays the turn. Returns whether that can be done.
fn play(board: &mut ChainBoard, colour: Colour, turn: Turn) -> bool {
    match turn {
        Turn::At(point) => board.size().holds(point) && board.play(colour, point).is_ok(),
        Turn::Pass => true,
    }
}

/// Sets up the stones of the node, if it has any. Returns whether that can be done.
fn set_up(board: &mut ChainBoard, node: &SgfNode) -> bool {
    if !has_setup(node) {
        return true;
    }
    let after = assigned(board.size(), node, &board.colouring());
    board.assign(&after).is_ok()
}

/// The first stone, row by row.
fn first_stone(board: &ChainBoard) -> Option<Point> {
    let size = board.size();
    for number in 0..size.area() {
        let point = size.point_at(number);
        if !board.cell(point).is_empty() {
            return Some(point);
        }
    }
    None
}
