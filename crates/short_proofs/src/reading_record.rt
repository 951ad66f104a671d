//! The record of a short claim for readers.
//!
//! It is built from its last node to its first. A node below which several come ends a sequence, and each of those begins a game
//! tree; so the trees of later nodes are finished when those of earlier ones take them up.

ghost use Rattle.std.specs.Prelude.{◌≡◌, ◌++◌, ◌∷◌, List, IfOk, string_bytes};
ghost use Rattle.sgf_text.specs.Trees.{Node};
ghost use Rattle.tool_parts.specs.Says.{winner_text};
ghost use Rattle.short_proofs.specs.Says.{HasVerdict, IsNoted, SaysWinner};

use crate::notes::{labels, note_text};
use crate::shown::{Shown, child_counts};
use go_points::Colour;
use sgf_text::{Property, SgfNode, Tree};
use std::alloc::{AllocError, Global};
use target_game::Problem;
use tool_parts::{copy_properties, single, winner_said};
use tsumego_problem::{marks_node, marks_with_winner, past_nodes, turn_node};

/// The record of these nodes: the first is the problem's, with the winner.
pub(crate) fn record_of(
    alloc: Global,
    problem: &Problem,
    winner: Colour,
    shown: &[Shown],
) -> Result<Tree, AllocError>
    ensures { IfOk result (HasVerdict winner) }
{
    let counts = child_counts(alloc, shown)?;
    let counts = counts.as_slice();
    let mut finished = Vec::new(alloc);
    for later in 1..shown.len() {
        let at = shown.len() - later;
        if begins_tree(shown, counts, at) {
            let tree = tree_from(
                alloc,
                problem,
                shown,
                counts,
                at,
                Vec::new(alloc),
                &mut finished,
            )?;
            finished.push(tree)?;
        }
    }
    let mut nodes = past_nodes(alloc, problem)?;
    nodes.push(problem_node(alloc, problem, winner, shown)?)?;
    match counts.first().copied() {
        Some(1) => tree_from(alloc, problem, shown, counts, 1, nodes, &mut finished),
        Some(count) => tree_of(nodes, last_trees(alloc, count, &mut finished)?),
        None => tree_of(nodes, Vec::new(alloc)),
    }
}

/// Whether the node comes below one that has several below it.
fn begins_tree(shown: &[Shown], counts: &[usize], at: usize) -> bool {
    match shown.get(at) {
        Some(node) => counts.get(node.parent).copied() != Some(1),
        None => false,
    }
}

/// The tree of the nodes so far and of those from this one on, up to one that does not have a single node below it. The trees below
/// that one are the last ones that are finished.
fn tree_from(
    alloc: Global,
    problem: &Problem,
    shown: &[Shown],
    counts: &[usize],
    from: usize,
    mut nodes: Vec<SgfNode>,
    finished: &mut Vec<Tree>,
) -> Result<Tree, AllocError>
    ensures { IfOk result
        (λ tree. (more : List Node) × (tree.nodes ≡ nodes.items ++ more)) }
{
    let mut children = 0;
    for at in from..shown.len() {
        nodes.push(shown_node(alloc, problem, shown, &shown[at])?)?;
        children = counts.get(at).copied().unwrap_or(0);
        if children != 1 {
            break;
        }
    }
    tree_of(nodes, last_trees(alloc, children, finished)?)
}

/// Takes up so many of the trees that were finished last, the latest first.
fn last_trees(
    alloc: Global,
    count: usize,
    finished: &mut Vec<Tree>,
) -> Result<Vec<Tree>, AllocError> {
    let mut children = Vec::new(alloc);
    for _ in 0..count {
        if let Some(tree) = finished.pop() {
            children.push(tree)?;
        }
    }
    Ok(children)
}

/// The node of the problem: its marks and the winner, and what it says if nothing comes below it.
fn problem_node(
    alloc: Global,
    problem: &Problem,
    winner: Colour,
    shown: &[Shown],
) -> Result<SgfNode, AllocError>
    ensures { IfOk result (SaysWinner winner) }
{
    let Some(node) = shown.first() else {
        return marks_with_winner(alloc, problem, winner);
    };
    let Some(text) = note_text(alloc, problem, shown, node)? else {
        return marks_with_winner(alloc, problem, winner);
    };
    let marks = marks_node(alloc, problem)?;
    let said = winner_with(alloc, winner, text.as_str())?;
    with_note(alloc, &marks, labels(alloc, node)?, said.as_str())
}

/// Who wins, and on the next line what else is said.
fn winner_with(alloc: Global, winner: Colour, text: &str) -> Result<String, AllocError>
    ensures { IfOk result (λ t. string_bytes t ≡ winner_text winner ++ 10 ∷ text.now) }
{
    let said = winner_said(alloc, winner)?;
    format!(in alloc; "{said}\n{text}")
}

/// The node of a turn, with its labels and its comment.
fn shown_node(
    alloc: Global,
    problem: &Problem,
    shown: &[Shown],
    node: &Shown,
) -> Result<SgfNode, AllocError> {
    let turn = turn_node(alloc, problem.size(), node.colour, node.turn)?;
    match note_text(alloc, problem, shown, node)? {
        Some(text) => with_note(alloc, &turn, labels(alloc, node)?, text.as_str()),
        None => Ok(turn),
    }
}

/// The node with labels and a comment.
fn with_note(
    alloc: Global,
    node: &SgfNode,
    labels: Option<Property>,
    text: &str,
) -> Result<SgfNode, AllocError>
    ensures { IfOk result (λ made. IsNoted node.now text.now made) }
{
    let mut properties = copy_properties(alloc, node.as_slice())?;
    if let Some(labels) = labels {
        properties.push(labels)?;
    }
    properties.push(single(alloc, b"C", text.as_bytes())?)?;
    match SgfNode::new(properties) {
        Some(node) => Ok(node),
        None => Err(AllocError),
    }
}

fn tree_of(nodes: Vec<SgfNode>, children: Vec<Tree>) -> Result<Tree, AllocError>
    ensures { IfOk result (λ tree. tree.nodes ≡ nodes.items) }
{
    match Tree::new(nodes, children) {
        Some(tree) => Ok(tree),
        None => Err(AllocError),
    }
}
