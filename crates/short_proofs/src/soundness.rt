//! Whether a record for readers says what is so. It is an answer tree of its winner but for two kinds of ends: where a group lives by its
//! shape, and where a comment says that play goes on as elsewhere. The record is walked before it is handed out, so nothing is promised
//! of what wrote it.

ghost use Rattle.std.specs.Prelude.{◌≡◌, ◌∷◌, codes, false, IfOk, IsTrue, length};
ghost use Rattle.target_game.specs.State.{start};
ghost use Rattle.sgf_text.specs.Text.{is_forest};
ghost use Rattle.sgf_text.specs.Trees.{forest_of};
ghost use Rattle.solution_tree.specs.Below.{no_node, nodes_of};
ghost use Rattle.solution_tree.specs.Questions.{Leads, follows};
ghost use Rattle.short_proofs.specs.Sound.{says, lives_text, says_again, state_after, IsAnswered, IsSound, AreSound, IsReading};

use go_points::Colour;
use pass_alive::lives_at;
use sgf_text::{SgfNode, Tree};
use solution_tree::{AuditWhy, ask_rest, take_back, take_turn};
use std::alloc::{AllocError, Global};
use target_game::{PlayState, Problem, State};
use tsumego_problem::{locate, values_at};

/// Whether a comment of the node begins with these words.
fn says(words: &[u8], node: &SgfNode) -> bool
    ensures { result ≡ says words.now node.now }
{
    let mut left = values_at(b"C", node);
    while let Some((value, others)) = left.split_first() {
        if value.as_slice().starts_with(words) {
            return true;
        }
        left = others;
    }
    false
}

/// The words with which a comment says that this side lives.
fn lives_text(side: Colour) -> &'static str
    ensures { result.now ≡ lives_text side }
{
    match side {
        Colour::Black => "Black lives",
        Colour::White => "White lives",
    }
}

/// Whether nothing follows a node.
fn is_end(nodes: &[SgfNode], children: &[Tree]) -> bool
    ensures { IsTrue result → follows nodes.now children.now ≡ no_node }
{
    nodes.is_empty() && children.is_empty()
}

/// Whether the nodes and trees are what has to follow a node. `is_sent` says whether the node's comment sends the reader elsewhere.
fn is_answered(
    problem: &Problem,
    winner: Colour,
    state: &PlayState,
    is_sent: bool,
    nodes: &[SgfNode],
    children: &[Tree],
) -> bool
    requires game { state.now.state.game ≡ problem.now.game }
    requires forest { IsTrue (is_forest (forest_of children.now)) }
    ensures { IsTrue result
        → IsAnswered winner state.now.state is_sent (follows nodes.now children.now) }
{
    if ask_rest(winner, state, nodes, children).is_ok() {
        return true;
    }
    if !is_end(nodes, children) {
        return false;
    }
    if is_sent {
        return true;
    }
    winner == problem.defender() && lives_at(problem, &state.colouring())
}

/// Makes the node's turn. Returns whether the node says what is so, if these nodes and trees follow it.
fn is_node_sound(
    problem: &Problem,
    winner: Colour,
    state: &mut PlayState,
    node: &SgfNode,
    nodes: &[SgfNode],
    children: &[Tree],
) -> Result<bool, AllocError>
    requires game { state.old.state.game ≡ problem.now.game }
    requires forest { IsTrue (is_forest (forest_of children.now)) }
    ensures sound { IfOk result (λ sound. IsTrue sound
        → IsSound winner state.old.state node.now (follows nodes.now children.now)) }
    ensures state { IfOk result (λ sound. IsTrue sound → state.new ≡ record {
      state = state_after state.old.state node.now;
      before = state.old.state ∷ state.old.before;
    }) }
{
    match take_turn(state, node) {
        Ok(_) => {}
        Err(AuditWhy::Memory) => return Err(AllocError),
        Err(_) => return Ok(false),
    }
    let says_lives = says(lives_text(problem.defender()).as_bytes(), node);
    if says_lives && !lives_at(problem, &state.colouring()) {
        return Ok(false);
    }
    let is_sent = says(b"As ", node);
    Ok(is_answered(problem, winner, state, is_sent, nodes, children))
}

/// Makes the turns of the nodes, each of which follows the one before it, as these trees follow the last. Returns whether the nodes say
/// what is so.
fn are_nodes_sound(
    problem: &Problem,
    winner: Colour,
    state: &mut PlayState,
    nodes: &[SgfNode],
    children: &[Tree],
) -> Result<bool, AllocError>
    requires game { state.old.state.game ≡ problem.now.game }
    requires forest { IsTrue (is_forest (forest_of children.now)) }
    ensures state { IfOk result (λ sound. IsTrue sound
        → Leads (length nodes.now) state.old state.new) }
    ensures game { IfOk result (λ sound. IsTrue sound
        → state.new.state.game ≡ problem.now.game) }
    ensures sound { IfOk result (λ sound. IsTrue sound
        → AreSound winner state.new.state (nodes_of (forest_of children.now))
        → AreSound winner state.old.state (follows nodes.now children.now)) }
{
    let mut left = nodes;
    while let Some((node, others)) = left.split_first() {
        if !is_node_sound(problem, winner, state, node, others, children)? {
            return Ok(false);
        }
        left = others;
    }
    Ok(true)
}

/// Whether the nodes, each of which follows the one before it, and the trees after them say what is so. If so, the state is then as it
/// was.
#[cycle(soundness)]
fn is_sequence_sound(
    problem: &Problem,
    winner: Colour,
    state: &mut PlayState,
    nodes: &[SgfNode],
    children: &[Tree],
) -> Result<bool, AllocError>
    requires game { state.old.state.game ≡ problem.now.game }
    requires forest { IsTrue (is_forest (forest_of children.now)) }
    ensures state { IfOk result (λ sound. IsTrue sound → state.new ≡ state.old) }
    ensures sound { IfOk result (λ sound. IsTrue sound
        → AreSound winner state.old.state (follows nodes.now children.now)) }
{
    if !are_nodes_sound(problem, winner, state, nodes, children)? {
        return Ok(false);
    }
    if !are_children_sound(problem, winner, state, children)? {
        return Ok(false);
    }
    take_back(state, nodes.len());
    Ok(true)
}

/// Whether the trees, each of which follows the same node, say what is so. If so, the state is then as it was.
#[cycle(soundness)]
fn are_children_sound(
    problem: &Problem,
    winner: Colour,
    state: &mut PlayState,
    children: &[Tree],
) -> Result<bool, AllocError>
    requires game { state.old.state.game ≡ problem.now.game }
    ensures state { IfOk result (λ sound. IsTrue sound → state.new ≡ state.old) }
    ensures sound { IfOk result (λ sound. IsTrue sound
        → AreSound winner state.old.state (nodes_of (forest_of children.now))) }
{
    let mut left = children;
    while let Some((child, others)) = left.split_first() {
        if !is_sequence_sound(problem, winner, state, child.nodes(), child.children())? {
            return Ok(false);
        }
        left = others;
    }
    Ok(true)
}

/// Whether the record of this problem, in which this side is said to win, says what is so below the problem's node. The cost is that of an
/// audit, and of asking for life by shape where a node says so.
pub(crate) fn is_record_sound(
    alloc: Global,
    problem: &Problem,
    winner: Colour,
    tree: &Tree,
) -> Result<bool, AllocError>
    ensures { IfOk result (λ sound. IsTrue sound
        → IsReading winner (start problem.now) tree.now) }
{
    let Some(mark) = locate(tree) else {
        return Ok(false);
    };
    let mut state = State::of(alloc, problem)?;
    if !is_answered(problem, winner, &state, false, mark.nodes, mark.children) {
        return Ok(false);
    }
    is_sequence_sound(problem, winner, &mut state, mark.nodes, mark.children)
}
