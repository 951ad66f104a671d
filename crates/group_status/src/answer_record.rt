//! What is proved of a group, as a record for a viewer: a variation for each move that has to be answered.

use crate::group::Group;
use crate::past::without_past;
use crate::solutions::{Marks, marked_node, shown_nodes};
use crate::variation::tree_with;
use go_points::{Colour, Colouring, Point, PointSet, Turn};
use group_search::{Answer, Finding};
use proved_groups::{FirstMoves, ProvenByMove};
use sgf_text::Tree;
use std::alloc::{AllocError, Global};
use tsumego_problem::turn_node;

/// The record of a group whose fate is proved, with these lines as the comment of its position, circles on its stones and on those that
/// are kept, crosses on the empty points of the region, and a variation for each answer to the moves of this side.
pub(crate) fn answers_record(
    alloc: Global,
    group: &Group,
    first: Colour,
    finding: Option<&Finding>,
    lines: &str,
) -> Result<Tree, AllocError> {
    let Some(before) = without_past(alloc, &group.problem)? else {
        return Err(AllocError);
    };
    let marks = marks_of(group, finding);
    let nodes = shown_nodes(alloc, &before, &marks, lines)?;
    let answers = match finding {
        Some(finding) => finding.answers.as_slice(),
        None => &[],
    };
    tree_with(nodes, answer_branches(alloc, group, first, answers)?)
}

/// Circles on the group's stones and on those that are kept, and crosses on the empty points of the region.
fn marks_of(group: &Group, finding: Option<&Finding>) -> Marks {
    let mut marks = Marks::of(group.position.stones(group.target), PointSet::new());
    let Some(finding) = finding else {
        return marks;
    };
    for stone in finding.kept.iter() {
        marks.circles.insert(stone);
    }
    let colouring = group.position.colouring();
    for point in finding.region.iter() {
        if is_empty_at(colouring, point) {
            marks.crosses.insert(point);
        }
    }
    marks
}

/// Whether the point is on the board, and empty.
fn is_empty_at(colouring: &Colouring, point: Point) -> bool {
    let size = colouring.size();
    size.holds(point) && colouring.cell(point.number(size)).is_empty()
}

/// The record of a group that each of these first moves decides, with a variation for each, and the answers below it.
pub(crate) fn first_moves_record(
    alloc: Global,
    group: &Group,
    first_moves: &FirstMoves,
    lines: &str,
) -> Result<Tree, AllocError> {
    let Some(before) = without_past(alloc, &group.problem)? else {
        return Err(AllocError);
    };
    let marks = marks_of(group, None);
    let nodes = shown_nodes(alloc, &before, &marks, lines)?;
    let mut branches = Vec::new(alloc);
    for mover in [group.defender.opponent(), group.defender] {
        if let Some(proven) = first_moves.by(mover) {
            branches.push(first_move_branch(alloc, group, proven)?)?;
        }
    }
    tree_with(nodes, branches)
}

/// A first move that is proved to win, marked as the position of a group is whose fate is proved, and below it the answers to the other
/// side's moves.
pub(crate) fn first_move_branch(
    alloc: Global,
    group: &Group,
    proven: &ProvenByMove,
) -> Result<Tree, AllocError> {
    let mover = proven.mover();
    let other = mover.opponent();
    let (Some(first), _) = proven.end() else {
        return Err(AllocError);
    };
    let mut nodes = Vec::new(alloc);
    let turn = turn_node(alloc, group.problem.size(), mover, Turn::At(first))?;
    nodes.push(marked_node(alloc, &turn, &marks_of(group, Some(proven.finding())))?)?;
    let answers = proven.finding().answers.as_slice();
    tree_with(nodes, answer_branches(alloc, group, other, answers)?)
}

/// A variation for each answer to the moves of this side.
fn answer_branches(
    alloc: Global,
    group: &Group,
    first: Colour,
    answers: &[Answer],
) -> Result<Vec<Tree>, AllocError> {
    let mut branches = Vec::new(alloc);
    for one in answers {
        branches.push(answer_branch(alloc, group, first, *one)?)?;
    }
    Ok(branches)
}

/// A move of this side's and the answer.
fn answer_branch(
    alloc: Global,
    group: &Group,
    first: Colour,
    one: Answer,
) -> Result<Tree, AllocError> {
    let size = group.problem.size();
    let answer = match one.answer {
        Some(point) => Turn::At(point),
        None => Turn::Pass,
    };
    let mut nodes = Vec::new(alloc);
    nodes.push(turn_node(alloc, size, first, Turn::At(one.point))?)?;
    nodes.push(turn_node(alloc, size, first.opponent(), answer)?)?;
    tree_with(nodes, Vec::new(alloc))
}
