//! The record of a solution: a problem with its winner, and the answer tree below it.

ghost use Rattle.std.specs.Prelude.{◌≡◌, ◌≢◌, ◌+◌, ◌≤◌, ◌++◌, ℕ, [], IfOk, IfSome, IsFalse, is_some};
ghost use Rattle.go_points.specs.declared.Colour.{Colour as Side};
ghost use Rattle.go_points.specs.Ply.{ply_of};
ghost use Rattle.target_game.specs.Answers.{turn, answer_size, reply_sizes};
ghost use Rattle.sgf_text.specs.Trees.{forest_of, tree_of};
ghost use Rattle.tsumego_problem.specs.Canonical.{rest_of, forest_of_replies, solution};
ghost use Rattle.proof_cert.specs.Certificate.{claim_of};
ghost use Rattle.solution_tree.specs.Answer.{answer_of, replies_of};
ghost use Rattle.solution_tree.specs.Private.Written.{is_single};

use crate::answer::Answer;
use cert_check::Checked;
use go_points::{Colour, Size, Turn};
use sgf_text::{SgfNode, Tree};
use std::alloc::{AllocError, Global};
use tsumego_problem::{marks_with_winner, past_nodes, turn_node};

/// The single turn that comes first, with the tree below it. `None` if there is no turn, or if there are several.
fn single_turn<'a>(answer: &'a Answer) -> Option<(Turn, &'a Answer)>
    ensures some { (n : ℕ) → is_some result ≡ is_single (answer_of n answer.now) }
    ensures rest { IfSome result (λ r. (n : ℕ) (k : Side)
        → rest_of n k (answer_of n answer.now)
        ≡ rest_of n k (turn (ply_of n r.0) (answer_of n r.1.now))) }
    ensures size { IfSome result (λ r. (n : ℕ)
        → answer_size (answer_of n answer.now) ≡ 1 + answer_size (answer_of n r.1.now)) }
{
    match answer {
        Answer::Won => None,
        Answer::Turn(turn, below) => Some((*turn, below)),
        Answer::Replies(replies) => {
            if replies.len() == 1 {
                let (turn, below) = &replies[0];
                Some((*turn, below))
            } else {
                None
            }
        }
    }
}

/// The turns that come first, each with the tree below it, if there is not just one.
fn several_turns<'a>(answer: &'a Answer) -> &'a [(Turn, Answer)]
    ensures rest { (n : ℕ) (k : Side) → IsFalse (is_single (answer_of n answer.now))
        → rest_of n k (answer_of n answer.now)
        ≡ ([], forest_of_replies n k (replies_of n result.now)) }
    ensures size { (n : ℕ)
        → reply_sizes (replies_of n result.now) ≤ answer_size (answer_of n answer.now) }
{
    match answer {
        Answer::Replies(replies) => replies.as_slice(),
        Answer::Won => &[],
        Answer::Turn(_, _) => &[],
    }
}

/// Appends the nodes of the turns for as long as there is a single next turn, however many there are. Returns the colour to move
/// then, and the turns that branch off.
fn push_line<'a>(
    alloc: Global,
    size: Size,
    mover: Colour,
    answer: &'a Answer,
    nodes: &mut Vec<SgfNode>,
) -> Result<(Colour, &'a [(Turn, Answer)]), AllocError>
    ensures nodes { IfOk result
        (λ r. nodes.new.items
        ≡ nodes.old.items ++ (rest_of size mover (answer_of size answer.now)).0) }
    ensures branches { IfOk result
        (λ r. forest_of_replies size r.0 (replies_of size r.1.now)
        ≡ (rest_of size mover (answer_of size answer.now)).1) }
    ensures size { IfOk result
        (λ r. reply_sizes (replies_of size r.1.now) ≤ answer_size (answer_of size answer.now)) }
{
    let mut part = answer;
    let mut colour = mover;
    while let Some((turn, below)) = single_turn(part) {
        nodes.push(turn_node(alloc, size, colour, turn)?)?;
        colour = colour.opponent();
        part = below;
    }
    Ok((colour, several_turns(part)))
}

/// The tree of these nodes and child trees.
fn tree_with(nodes: Vec<SgfNode>, children: Vec<Tree>) -> Tree
    requires { nodes.items ≢ [] }
    ensures { result ≡ tree_of nodes.items children.items }
{
    match Tree::new(nodes, children) {
        Some(tree) => tree,
        None => unreachable!(),
    }
}

/// The tree of a turn and what is below it.
#[cycle(trees)]
fn reply_tree(
    alloc: Global,
    size: Size,
    mover: Colour,
    first: Turn,
    below: &Answer,
) -> Result<Tree, AllocError>
    ensures { IfOk result
        (λ tree. tree ≡ record {
          nodes = (rest_of size mover (turn (ply_of size first) (answer_of size below.now))).0;
          children = (rest_of size mover (turn (ply_of size first) (answer_of size below.now))).1;
        }) }
{
    let mut nodes = Vec::new(alloc);
    nodes.push(turn_node(alloc, size, mover, first)?)?;
    let (colour, replies) = push_line(alloc, size, mover.opponent(), below, &mut nodes)?;
    let children = reply_trees(alloc, size, colour, replies)?;
    Ok(tree_with(nodes, children))
}

/// A tree for each of the turns.
#[cycle(trees)]
fn reply_trees(
    alloc: Global,
    size: Size,
    mover: Colour,
    replies: &[(Turn, Answer)],
) -> Result<Vec<Tree>, AllocError>
    ensures { IfOk result
        (λ trees. forest_of trees.items
        ≡ forest_of_replies size mover (replies_of size replies.now)) }
{
    let mut trees = Vec::new(alloc);
    for (turn, below) in replies {
        trees.push(reply_tree(alloc, size, mover, *turn, below)?)?;
    }
    Ok(trees)
}

/// The record of a solution (SGF FF[4], in this project's own form): the canonical record of the claim's problem with its winner as
/// a comment (C) of the problem node, and the answer tree below it. The sides take turns, beginning with the problem's mover. A
/// single turn continues the sequence; if there are several, each begins a game tree, in their order. A move at a point that the
/// board does not have is written as one at the first point below the board. It fails only if memory is refused.
pub fn to_sgf(alloc: Global, checked: &Checked, answer: &Answer) -> Result<Tree, AllocError>
    ensures { IfOk result
        (λ tree. tree ≡ solution checked.now.problem (claim_of checked.now.certificate).winner
        (answer_of checked.now.problem.game.size answer.now)) }
{
    let problem = checked.problem();
    let size = problem.size();
    let mut nodes = past_nodes(alloc, problem)?;
    nodes.push(marks_with_winner(alloc, problem, checked.winner())?)?;
    let (colour, replies) = push_line(alloc, size, problem.mover(), answer, &mut nodes)?;
    let children = reply_trees(alloc, size, colour, replies)?;
    Ok(tree_with(nodes, children))
}
