//! The turns of a record below its problem, numbered in the order of the text.

use go_points::{Size, Turn};
use sgf_text::{SgfNode, Tree};
use std::alloc::{AllocError, Global};
use tsumego_problem::turn_at;

/// A node of a record.
#[derive(Clone, Copy, Debug)]
pub(crate) struct Reply {
    /// The number of the node above it; the first node has its own.
    pub(crate) parent: usize,
    /// Its turn. `None` for a node without one.
    pub(crate) turn: Option<Turn>,
    /// How many nodes stand below it.
    pub(crate) below: usize,
}

/// The nodes of the record.
pub(crate) fn replies_of(alloc: Global, size: Size, tree: &Tree) -> Result<Vec<Reply>, AllocError> {
    let mut all = Vec::new(alloc);
    push_tree(size, tree, 0, &mut all)?;
    count_below(&mut all);
    Ok(all)
}

/// Appends the nodes of the tree, whose first stands below the node of this number. It recurses as deep as trees are nested.
fn push_tree(
    size: Size,
    tree: &Tree,
    parent: usize,
    into: &mut Vec<Reply>,
) -> Result<(), AllocError> {
    let last = push_sequence(size, tree.nodes(), parent, into)?;
    for child in tree.children() {
        push_tree(size, child, last, into)?;
    }
    Ok(())
}

/// Appends the nodes, each below the one before. The number of the last one; that of the first's parent if there is none.
fn push_sequence(
    size: Size,
    nodes: &[SgfNode],
    parent: usize,
    into: &mut Vec<Reply>,
) -> Result<usize, AllocError> {
    let mut above = parent;
    for i in 0..nodes.len() {
        let number = into.len();
        let turn: Option<Turn> = turn_of(size, &nodes[i]);
        into.push(Reply {
            parent: above,
            turn,
            below: 0,
        })?;
        above = number;
    }
    Ok(above)
}

/// The node's turn, if it has one.
fn turn_of(size: Size, node: &SgfNode) -> Option<Turn> {
    match turn_at(size, node) {
        Some((_side, turn)) => Some(turn),
        None => None,
    }
}

/// Counts what stands below each node: each adds to the one above it, the last ones first.
fn count_below(all: &mut Vec<Reply>) {
    let count = all.len();
    for i in 0..count {
        let at = count - 1 - i;
        if at > 0 && at < all.len() {
            let parent = all[at].parent;
            let more = all[at].below.saturating_add(1);
            if parent < all.len() {
                all[parent].below = all[parent].below.saturating_add(more);
            }
        }
    }
}

/// The first move below a node, with its number. `None` if what comes first is a pass, or nothing.
pub(crate) fn first_below(all: &[Reply], above: usize) -> Option<(usize, Turn)> {
    for i in 0..all.len() {
        if all[i].parent == above && i > above {
            return numbered(&all[i], i);
        }
    }
    None
}

/// The move that resists longest of those below a node that come after this one in that order: the one with the most nodes below
/// it, of several the first.
pub(crate) fn longest_below(
    all: &[Reply],
    above: usize,
    after: Option<usize>,
) -> Option<(usize, Turn)> {
    let mut found: Option<usize> = None;
    for i in 0..all.len() {
        // The prover takes what was passed on as moved.
        let first = after;
        let before = found;
        if all[i].parent == above && i > above && is_move(&all[i]) {
            if is_after(all, first, i) && is_before(all, i, before) {
                found = Some(i);
            }
        }
    }
    let number = found?;
    numbered(all.get(number)?, number)
}

/// Whether a node comes after this one, if there is one, in the order of `longest_below`.
fn is_after(all: &[Reply], first: Option<usize>, one: usize) -> bool {
    match first {
        Some(number) => is_longer(all, number, one),
        None => true,
    }
}

/// Whether a node comes before this one, if there is one, in the order of `longest_below`.
fn is_before(all: &[Reply], one: usize, before: Option<usize>) -> bool {
    match before {
        Some(number) => is_longer(all, one, number),
        None => true,
    }
}

/// Whether a node comes before another in the order of `longest_below`.
fn is_longer(all: &[Reply], one: usize, other: usize) -> bool {
    if one >= all.len() || other >= all.len() {
        return false;
    }
    if all[one].below == all[other].below {
        return one < other;
    }
    all[one].below > all[other].below
}

/// Whether the node's turn is a move.
fn is_move(one: &Reply) -> bool {
    match one.turn {
        Some(Turn::At(_)) => true,
        _ => false,
    }
}

/// The node's move with its number. `None` for a pass, and for a node without a turn.
fn numbered(one: &Reply, number: usize) -> Option<(usize, Turn)> {
    match one.turn {
        Some(Turn::At(point)) => Some((number, Turn::At(point))),
        _ => None,
    }
}
