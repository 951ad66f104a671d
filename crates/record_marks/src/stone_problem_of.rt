//! The problem of a stone at a node of a record, whose region is the whole board.

use crate::marking::{Marks, Refusal, Region, asked_problem, chosen_place};
use go_points::{Point, Size, to_sgf};
use regions::named_point;
use sgf_text::Tree;
use std::alloc::{AllocError, Global};
use target_game::Problem;
use tsumego_problem::{ProblemFault, board_size, read_problem};

/// Why there is no such problem.
#[derive(Clone, Copy, Debug, PartialEq, Eq)]
pub enum NoStone {
    /// The main line has no such node.
    OffTheLine,
    /// The board has no point with that name.
    NoPoint,
    /// The record gives no problem with a stone at that point.
    NoProblem(ProblemFault),
    Memory,
}

impl From<AllocError> for NoStone {
    fn from(_: AllocError) -> NoStone {
        NoStone::Memory
    }
}

/// The point of this name, as `dc` or `D17`, on the record's board.
fn point_of(tree: &Tree, name: &[u8]) -> Option<Point> {
    let size = size_of(tree)?;
    named_point(size, name)
}

/// The size of the record's board.
fn size_of(tree: &Tree) -> Option<Size> {
    let root = tree.nodes().first()?;
    board_size(root)
}

/// The problem of the stone of this name at the node of the main line with this number; by default at that of `default_node`.
pub fn stone_problem(
    alloc: Global,
    tree: &Tree,
    node: Option<usize>,
    name: &[u8],
) -> Result<Problem, NoStone> {
    match point_of(tree, name) {
        Some(point) => point_problem(alloc, tree, chosen_place(tree, node), point),
        None => Err(NoStone::NoPoint),
    }
}

/// The problem of the stone at the point, at the node of the main line with this number.
pub(crate) fn point_problem(
    alloc: Global,
    tree: &Tree,
    place: usize,
    point: Point,
) -> Result<Problem, NoStone> {
    let letters = to_sgf(point);
    let wanted = Marks {
        node: Some(place),
        targets: letters.as_slice(),
        region: Region::Board,
        mover: None,
    };
    match asked_problem(alloc, tree, place, wanted) {
        Ok(problem) => Ok(problem),
        Err(refusal) => Err(no_stone(refusal)),
    }
}

/// The problem that the record's own marks ask about.
pub fn marked_problem(alloc: Global, tree: &Tree) -> Result<Problem, NoStone> {
    match read_problem(alloc, tree) {
        Ok(problem) => Ok(problem),
        Err(ProblemFault::Memory) => Err(NoStone::Memory),
        Err(fault) => Err(NoStone::NoProblem(fault)),
    }
}

/// The refusal, as one of a stone.
fn no_stone(refusal: Refusal) -> NoStone {
    match refusal {
        Refusal::Memory => NoStone::Memory,
        Refusal::OffTheLine => NoStone::OffTheLine,
        Refusal::NoProblem(fault) => NoStone::NoProblem(fault),
        _ => NoStone::NoPoint,
    }
}
