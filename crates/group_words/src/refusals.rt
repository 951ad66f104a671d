//! Why nothing is asked, in one line that names the node and the point.

use record_marks::{NoStone, default_node, last_node};
use sgf_text::{SgfFault, Tree};
use std::alloc::{AllocError, Global};
use std::convert::AsStr;
use tool_parts::{Output, refused};
use tsumego_problem::{ProblemFault, board_size};

/// Why no tree was read.
pub fn no_tree(alloc: Global, fault: SgfFault) -> Result<Output, AllocError> {
    if fault == SgfFault::Memory {
        return Err(AllocError);
    }
    refused(format!(in alloc; "refused: {fault}\n")?)
}

/// The number of the node that is asked about.
pub fn node_asked(tree: &Tree, node: Option<usize>) -> usize {
    match node {
        Some(number) => number,
        None => default_node(tree),
    }
}

/// The number of the node before two passes, the second of which is the node with this number.
pub fn before_passes(node: usize) -> usize {
    node.saturating_sub(2)
}

/// Why there is no stone of this name to ask about at this node. There is no name if all groups are asked about.
pub fn no_stone(
    alloc: Global,
    tree: &Tree,
    node: Option<usize>,
    name: &str,
    none: NoStone,
) -> Result<Output, AllocError> {
    let number = node_asked(tree, node);
    match none {
        NoStone::Memory => Err(AllocError),
        NoStone::OffTheLine => {
            let last = last_node(tree);
            refused(format!(in alloc;
                "refused: the main line has no node {number}, its last is node {last}\n"
            )?)
        }
        NoStone::NoPoint => no_point(alloc, tree, number, name),
        NoStone::NoProblem(ProblemFault::BadTargets { .. }) => bare_point(alloc, number, name),
        NoStone::NoProblem(fault) => no_problem(alloc, number, name, fault),
    }
}

/// Why the board has no such point.
fn no_point(alloc: Global, tree: &Tree, number: usize, name: &str) -> Result<Output, AllocError> {
    if board_size(&tree.nodes()[0]).is_none() {
        return no_problem(alloc, number, name, ProblemFault::Size);
    }
    if name.is_empty() {
        return bare_point(alloc, number, name);
    }
    refused(format!(in alloc; "refused: {name} is no point of the board, at node {number}\n")?)
}

/// Why there is no stone of that name at the node.
fn bare_point(alloc: Global, number: usize, name: &str) -> Result<Output, AllocError> {
    if name.is_empty() {
        return refused(format!(in alloc; "refused: there is no stone at node {number}\n")?);
    }
    refused(format!(in alloc; "refused: there is no stone at {name}, at node {number}\n")?)
}

/// Why the node has no problem with the stone of that name.
fn no_problem(
    alloc: Global,
    number: usize,
    name: &str,
    fault: ProblemFault,
) -> Result<Output, AllocError> {
    if let ProblemFault::Memory = fault {
        return Err(AllocError);
    }
    let comma = if name.is_empty() { "" } else { ", " };
    if let ProblemFault::Size = fault {
        return refused(format!(in alloc;
            "refused: {name}{comma}node {number}: the size of the board (SZ) is none of 1 to 25\n"
        )?);
    }
    if let ProblemFault::Ended { .. } = fault {
        let before = before_passes(number);
        return refused(format!(in alloc;
            "refused: {name}{comma}node {number}: two passes stand there, so the game is over; --node {before} is before them\n"
        )?);
    }
    let Some(at) = node_of(fault) else {
        return refused(format!(in alloc; "refused: {name}{comma}node {number}: {fault}\n")?);
    };
    let hint = node_before(alloc, at)?;
    if at < number {
        return refused(format!(in alloc;
            "refused: {name}{comma}node {number}: {fault} at node {at}{hint}\n"
        )?);
    }
    refused(format!(in alloc; "refused: {name}{comma}node {number}: {fault}{hint}\n")?)
}

/// That the node before the one at fault can be asked about, if there is one.
fn node_before(alloc: Global, at: usize) -> Result<String, AllocError> {
    match at.checked_sub(1) {
        Some(before) => format!(in alloc; "; --node {before} is before it"),
        None => Ok(String::new(alloc)),
    }
}

/// Why the marks of the record ask about no stone.
pub fn no_marks(alloc: Global, none: NoStone) -> Result<Output, AllocError> {
    match none {
        NoStone::Memory => Err(AllocError),
        NoStone::NoProblem(ProblemFault::NoProblemNode) => refused(format!(in alloc;
            "refused: the record marks no stone with a triangle (TR), and no --target names one\n"
        )?),
        NoStone::NoProblem(ProblemFault::Memory) => Err(AllocError),
        NoStone::NoProblem(ProblemFault::Ended { node }) => refused(format!(in alloc;
            "refused: node {node}: two passes stand there, so the game is over\n"
        )?),
        NoStone::NoProblem(ProblemFault::BadTargets { node }) => refused(format!(in alloc;
            "refused: node {node}: the triangles (TR) are not on stones of one colour\n"
        )?),
        NoStone::NoProblem(fault) => match node_of(fault) {
            Some(node) => refused(format!(in alloc; "refused: node {node}: {fault}\n")?),
            None => refused(format!(in alloc; "refused: {fault}\n")?),
        },
        _ => refused(format!(in alloc; "refused: the record has no problem\n")?),
    }
}

/// The node that a fault names.
fn node_of(fault: ProblemFault) -> Option<usize> {
    match fault {
        ProblemFault::ManyValues { node, .. } => Some(node),
        ProblemFault::BadPoint { node } => Some(node),
        ProblemFault::SharedPoint { node } => Some(node),
        ProblemFault::MixedNode { node } => Some(node),
        ProblemFault::BothColours { node } => Some(node),
        ProblemFault::IllegalTurn { node, .. } => Some(node),
        ProblemFault::NoLiberty { node } => Some(node),
        ProblemFault::BadColour { node } => Some(node),
        ProblemFault::LongHistory { node } => Some(node),
        _ => None,
    }
}
