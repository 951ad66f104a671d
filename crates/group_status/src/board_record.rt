//! What is said of all groups of a position, as a record for a viewer: each stone has a mark.

use crate::all_groups::Course;
use crate::past::without_past;
use crate::solutions::{Marks, shown_nodes};
use crate::variation::tree_with;
use sgf_text::Tree;
use std::alloc::{AllocError, Global};
use target_game::Problem;

/// What the marks mean, as the last line of the comment.
const LEGEND: &str = "circle: alive; cross: dead; u: unsettled; ?: open\n";

/// The record of the position with a mark on each stone of which something was said, and with these lines as its comment.
pub(crate) fn board_record(
    alloc: Global,
    problem: &Problem,
    course: &Course,
    lines: String,
) -> Result<Tree, AllocError> {
    let Some(alone) = without_past(alloc, problem)? else {
        return Err(AllocError);
    };
    let marks = Marks {
        circles: course.alive,
        crosses: course.dead,
        unsettled: course.unsettled,
        open: course.open,
    };
    let mut text = lines;
    text.push_str(LEGEND)?;
    let nodes = shown_nodes(alloc, &alone, &marks, text.as_str())?;
    tree_with(nodes, Vec::new(alloc))
}
