//! The variation that shows how a question was decided: the whole answer tree that a search finds if it is small, otherwise the
//! lines of a short claim, and the first turn alone if those are too many as well.

use cert_check::Checked;
use go_points::{Colour, Turn};
use pn_search::{Budget, Verdict, solve};
use sgf_text::{Property, SgfNode, Tree};
use short_proofs::{Reading, find_reading};
use solution_tree::{Expand, expand, to_sgf};
use std::alloc::{AllocError, Global};
use target_game::Problem;
use tool_parts::{copy_properties, push_nodes, push_trees, single};
use tsumego_problem::{marks_with_winner, past_nodes, turn_node};

/// The greatest number of turns of an answer tree that plays everything out.
const MAX_PLAYED_OUT: usize = 1_000;

/// A question whose solution is shown, and what is said of it.
#[derive(Clone, Copy)]
pub(crate) struct Question<'a> {
    /// The problem before the question was asked, whose nodes stand in the record already.
    pub(crate) before: &'a Problem,
    pub(crate) problem: &'a Problem,
    pub(crate) budget: Budget,
    /// The comment of the solution's first node.
    pub(crate) said: &'a str,
}

/// A node with the comment, and after it what is new in the record of the problem's solution. `left` is how many turns the record
/// may still have, and is lowered by those of the solution.
pub(crate) fn solved(
    alloc: Global,
    question: &Question<'_>,
    left: &mut usize,
) -> Result<Tree, AllocError> {
    let problem = question.problem.copy(alloc)?;
    match solve(alloc, problem, question.budget) {
        Verdict::Wins(checked) => won(alloc, question, &checked, left),
        Verdict::Unknown { .. } => unsolved(alloc, question, left),
    }
}

/// The lines of a short claim, if one is found; nothing else is known.
fn unsolved(alloc: Global, question: &Question<'_>, left: &mut usize) -> Result<Tree, AllocError> {
    match read_out(alloc, question, left)? {
        Some(tree) => Ok(tree),
        None => alone(alloc, question.said),
    }
}

/// The solution of a claim that plays everything out; the lines of a short claim if its tree is large.
fn won(
    alloc: Global,
    question: &Question<'_>,
    checked: &Checked,
    left: &mut usize,
) -> Result<Tree, AllocError> {
    if let Some(whole) = played_out(alloc, checked, left)? {
        return continued(alloc, question.before, question.said, &whole);
    }
    match read_out(alloc, question, left)? {
        Some(tree) => Ok(tree),
        None => first_turn_alone(alloc, question, checked.winner(), checked.first_turn()),
    }
}

/// The record of the whole answer tree. `None` if it is not small.
fn played_out(
    alloc: Global,
    checked: &Checked,
    left: &mut usize,
) -> Result<Option<Tree>, AllocError> {
    let most = MAX_PLAYED_OUT.min(*left);
    let answer = match expand(alloc, checked, most) {
        Ok(answer) => answer,
        Err(Expand::TooLarge) => return Ok(None),
        Err(Expand::Memory) => return Err(AllocError),
    };
    *left = left.saturating_sub(answer.size().unwrap_or(0));
    Ok(Some(to_sgf(alloc, checked, &answer)?))
}

/// The lines of a short claim; its first turn alone if they are too many. `None` if no short claim is found.
fn read_out(
    alloc: Global,
    question: &Question<'_>,
    left: &mut usize,
) -> Result<Option<Tree>, AllocError> {
    match find_reading(alloc, question.problem, question.budget, *left)? {
        Reading::Wins {
            winner,
            turns,
            tree,
        } => {
            *left = left.saturating_sub(turns);
            let text = with_ends(alloc, question.said, question.problem, winner)?;
            Ok(Some(continued(alloc, question.before, text.as_str(), &tree)?))
        }
        Reading::TooLarge { winner, turn } => {
            Ok(Some(first_turn_alone(alloc, question, winner, turn)?))
        }
        Reading::Unknown { .. } => Ok(None),
    }
}

/// The comment with one more line: where the lines of this winner's short claim end.
fn with_ends(
    alloc: Global,
    said: &str,
    problem: &Problem,
    winner: Colour,
) -> Result<String, AllocError> {
    let ends = if winner == problem.defender() {
        "A line ends where the group lives by its shape, after two passes, or as after the turns it names."
    } else {
        "A line ends where the group is taken, or as after the turns it names."
    };
    format!(in alloc; "{said}\n{ends}")
}

/// A node with the comment, and after it what is new in the record.
fn continued(
    alloc: Global,
    before: &Problem,
    said: &str,
    whole: &Tree,
) -> Result<Tree, AllocError> {
    let mut nodes = Vec::new(alloc);
    nodes.push(comment_node(alloc, said)?)?;
    let shown = past_nodes(alloc, before)?.len();
    let from = shown.min(whole.nodes().len());
    push_nodes(alloc, &whole.nodes()[from..], &mut nodes)?;
    let mut children = Vec::new(alloc);
    push_trees(alloc, whole.children(), &mut children)?;
    tree_with(nodes, children)
}

/// A node with the comment, the problem with its winner, and the winner's first turn, if it moves first, with a comment of its own.
fn first_turn_alone(
    alloc: Global,
    question: &Question<'_>,
    winner: Colour,
    turn: Option<Turn>,
) -> Result<Tree, AllocError> {
    let problem = question.problem;
    let mut nodes = past_nodes(alloc, problem)?;
    nodes.push(marks_with_winner(alloc, problem, winner)?)?;
    if let Some(turn) = turn {
        let node = turn_node(alloc, problem.size(), problem.mover(), turn)?;
        let mut properties = copy_properties(alloc, node.as_slice())?;
        properties.push(single(
            alloc,
            b"C",
            b"The whole solution has too many turns for a record.",
        )?)?;
        nodes.push(node_with(properties)?)?;
    }
    let whole = tree_with(nodes, Vec::new(alloc))?;
    continued(alloc, question.before, question.said, &whole)
}

/// A node with the comment, and nothing after it.
pub(crate) fn alone(alloc: Global, said: &str) -> Result<Tree, AllocError> {
    let mut nodes = Vec::new(alloc);
    nodes.push(comment_node(alloc, said)?)?;
    tree_with(nodes, Vec::new(alloc))
}

fn comment_node(alloc: Global, said: &str) -> Result<SgfNode, AllocError> {
    let mut properties = Vec::new(alloc);
    properties.push(single(alloc, b"C", said.as_bytes())?)?;
    node_with(properties)
}

/// The node of these properties. They are of different names, each with a value.
pub(crate) fn node_with(properties: Vec<Property>) -> Result<SgfNode, AllocError> {
    match SgfNode::new(properties) {
        Some(node) => Ok(node),
        None => Err(AllocError),
    }
}

/// The tree of these nodes, of which there is one at least, and child trees.
pub(crate) fn tree_with(nodes: Vec<SgfNode>, children: Vec<Tree>) -> Result<Tree, AllocError> {
    match Tree::new(nodes, children) {
        Some(tree) => Ok(tree),
        None => Err(AllocError),
    }
}
