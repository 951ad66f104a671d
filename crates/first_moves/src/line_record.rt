//! What is found of the later turns of a line, put into the branch that has the line.

use crate::found::counted;
use crate::judged::Judged;
use crate::line::{Later, Line};
use crate::list::tally_text;
use crate::record::{branch, tree_with, with_comment};
use sgf_text::{SgfNode, Tree};
use std::alloc::{AllocError, Global};
use std::mem;
use tool_parts::{copy_node, push_trees};

/// Nodes of the line that follow one another, and the trees that stand beside what follows them on it.
#[derive(Drop)]
struct Segment {
    nodes: Vec<SgfNode>,
    others: Vec<Tree>,
}

/// The branches, of which the first has the line, with what is found at its later turns; the same where no line is given. The
/// trees of the variations may have `left` turns.
pub(crate) fn with_line(
    alloc: Global,
    branches: Vec<Tree>,
    line: Option<&Line>,
    left: &mut usize,
) -> Result<Vec<Tree>, AllocError> {
    let Some(line) = line else {
        return Ok(branches);
    };
    let mut all = Vec::new(alloc);
    if let Some((first, others)) = branches.as_slice().split_first() {
        all.push(line_branch(alloc, first, line, left)?)?;
        push_trees(alloc, others, &mut all)?;
    }
    Ok(all)
}

/// The branch with what is found at the later turns of its main line.
fn line_branch(
    alloc: Global,
    branch: &Tree,
    line: &Line,
    left: &mut usize,
) -> Result<Tree, AllocError> {
    let mut segments = Vec::new(alloc);
    let mut place = 0;
    let mut part = branch;
    loop {
        let mut nodes = Vec::new(alloc);
        push_line_nodes(
            alloc,
            part.nodes(),
            line,
            left,
            &mut place,
            &mut nodes,
            &mut segments,
        )?;
        let Some((first, rest)) = part.children().split_first() else {
            return joined(alloc, segments, tree_with(nodes, Vec::new(alloc))?);
        };
        let mut others = Vec::new(alloc);
        push_trees(alloc, rest, &mut others)?;
        segments.push(Segment { nodes, others })?;
        part = first;
    }
}

/// Puts the nodes at the end, which stand after `place` nodes of the branch's main line. Where one is a later turn its comment
/// says how many are right there; the nodes before it are a segment where there are variations beside it.
fn push_line_nodes(
    alloc: Global,
    part: &[SgfNode],
    line: &Line,
    left: &mut usize,
    place: &mut usize,
    nodes: &mut Vec<SgfNode>,
    segments: &mut Vec<Segment>,
) -> Result<(), AllocError> {
    for node in part {
        match later_at(line, *place) {
            Some(later) => {
                let others = variations(alloc, later, left)?;
                if !others.is_empty() {
                    let before = mem::replace(nodes, Vec::new(alloc));
                    segments.push(Segment {
                        nodes: before,
                        others,
                    })?;
                }
                nodes.push(counted_node(alloc, node, *place, later)?)?;
            }
            None => nodes.push(copy_node(alloc, node)?)?,
        }
        *place = place.saturating_add(1);
    }
    Ok(())
}

/// The later turn that was judged and is the node after so many nodes of the main line, whose first is the mover's first turn.
fn later_at(line: &Line, place: usize) -> Option<&Later> {
    if place < 2 || place % 2 == 1 {
        return None;
    }
    line.later.get(place / 2 - 1)
}

/// The node with a comment that says how many turns are right in its place.
fn counted_node(
    alloc: Global,
    node: &SgfNode,
    place: usize,
    later: &Later,
) -> Result<SgfNode, AllocError> {
    let number = (place / 2).saturating_add(1);
    let what = format!(in alloc; "turn {number}")?;
    let text = tally_text(alloc, what.as_str(), counted(later.found.as_slice()))?;
    with_comment(alloc, node, None, text.as_str())
}

/// The trees of the turns that are right beside that of the line.
fn variations(alloc: Global, later: &Later, left: &mut usize) -> Result<Vec<Tree>, AllocError> {
    let mut trees = Vec::new(alloc);
    for one in &later.found {
        if let Judged::Right(_) = &one.judged {
            if later.turn != Some(one.turn) {
                let problem = &later.position.problem;
                trees.push(branch(alloc, problem, one, "also right", None, left)?)?;
            }
        }
    }
    Ok(trees)
}

/// The segments one below the other, and last the tree.
fn joined(alloc: Global, segments: Vec<Segment>, last: Tree) -> Result<Tree, AllocError> {
    let mut segments = segments;
    let mut tree = last;
    while let Some(segment) = segments.pop() {
        tree = tree_above(alloc, segment, tree)?;
    }
    Ok(tree)
}

/// The segment with the tree below it, before those beside it.
fn tree_above(alloc: Global, segment: Segment, below: Tree) -> Result<Tree, AllocError> {
    let mut children = Vec::new(alloc);
    children.push(below)?;
    let mut others = segment.others;
    children.append(&mut others)?;
    tree_with(segment.nodes, children)
}
