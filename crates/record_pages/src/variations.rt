//! Turns that a record says are right too, as variations beside one of the main line of a right first turn: `first_moves --depth`
//! writes them so.

use crate::page::NoPage;
use crate::puzzle::{after_turns, audited};
use go_points::{Colour, Size};
use sgf_text::{SgfNode, Tree};
use std::alloc::{AllocError, Global};
use target_game::Problem;
use tool_parts::{copy_tree, push_nodes};
use tsumego_problem::{turn_at, values_at};

/// Whether the tree begins with a turn of this side.
pub(crate) fn begins_with_side(size: Size, side: Colour, tree: &Tree) -> bool {
    let Some(node) = tree.nodes().first() else {
        return false;
    };
    match turn_at(size, node) {
        Some((colour, _)) => colour == side,
        None => false,
    }
}

/// Whether the tree begins with a turn of this side that is said to be right (`TE`).
pub(crate) fn is_right_turn(size: Size, side: Colour, tree: &Tree) -> bool {
    let Some(node) = tree.nodes().first() else {
        return false;
    };
    !values_at(b"TE", node).is_empty() && begins_with_side(size, side, tree)
}

/// The branch without the variations of its main line. It recurses as deep as trees are nested.
pub(crate) fn without_variations(
    alloc: Global,
    problem: &Problem,
    tree: &Tree,
) -> Result<Tree, NoPage> {
    let mut nodes = Vec::new(alloc);
    push_nodes(alloc, tree.nodes(), &mut nodes)?;
    let mut children = Vec::new(alloc);
    let mut is_first = true;
    for child in tree.children() {
        if is_first {
            push_tree(without_variations(alloc, problem, child)?, &mut children)?;
        } else if !is_right_turn(problem.size(), problem.mover(), child) {
            push_tree(copy_tree(alloc, child)?, &mut children)?;
        }
        is_first = false;
    }
    match Tree::new(nodes, children) {
        Some(plain) => Ok(plain),
        None => Err(NoPage::NotThePage),
    }
}

fn push_tree(tree: Tree, into: &mut Vec<Tree>) -> Result<(), AllocError> {
    into.push(tree)?;
    Ok(())
}

/// Checks that the tree below each variation of the branch's main line shows that its turn is right.
pub(crate) fn confirm_variations(
    alloc: Global,
    problem: &Problem,
    branch: &Tree,
) -> Result<(), NoPage> {
    match are_right(alloc, problem, branch) {
        Ok(true) => Ok(()),
        Ok(false) => Err(NoPage::WrongTurn),
        Err(AllocError) => Err(NoPage::Memory),
    }
}

/// Whether each variation of the branch's main line is right by the tree below it.
fn are_right(alloc: Global, problem: &Problem, branch: &Tree) -> Result<bool, AllocError> {
    let mut line = Vec::new(alloc);
    let mut part = branch;
    loop {
        push_nodes(alloc, part.nodes(), &mut line)?;
        let Some(first) = part.children().first() else {
            return Ok(true);
        };
        if !are_others_right(alloc, problem, line.as_slice(), part.children())? {
            return Ok(false);
        }
        part = first;
    }
}

/// Whether those of the children after the first that are variations are right.
fn are_others_right(
    alloc: Global,
    problem: &Problem,
    line: &[SgfNode],
    children: &[Tree],
) -> Result<bool, AllocError> {
    for at in 1..children.len() {
        if !is_right_if_variation(alloc, problem, line, &children[at])? {
            return Ok(false);
        }
    }
    Ok(true)
}

/// Whether the tree after the line is right, or is no variation.
fn is_right_if_variation(
    alloc: Global,
    problem: &Problem,
    line: &[SgfNode],
    tree: &Tree,
) -> Result<bool, AllocError> {
    if is_right_turn(problem.size(), problem.mover(), tree) {
        return is_right(alloc, problem, line, tree);
    }
    Ok(true)
}

/// Whether the variation after the line is right. If there is nothing below its turn, what the record says is taken over.
fn is_right(
    alloc: Global,
    problem: &Problem,
    line: &[SgfNode],
    variation: &Tree,
) -> Result<bool, AllocError> {
    let nodes = variation.nodes();
    let children = variation.children();
    if nodes.len() < 2 && children.is_empty() {
        return Ok(true);
    }
    match winner_after(alloc, problem, line, nodes, children) {
        Ok(found) => Ok(found == problem.mover()),
        Err(NoPage::Memory) => Err(AllocError),
        Err(_) => Ok(false),
    }
}

/// Who wins the problem after the line by these nodes and what follows them.
fn winner_after(
    alloc: Global,
    problem: &Problem,
    line: &[SgfNode],
    nodes: &[SgfNode],
    children: &[Tree],
) -> Result<Colour, NoPage> {
    let record = after_turns(alloc, problem, line, nodes, children)?;
    audited(alloc, &record)
}
