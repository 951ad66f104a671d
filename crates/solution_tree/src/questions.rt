//! The checks on a node of an answer tree: as a turn, and for what follows it.

ghost use Rattle.std.specs.Prelude.{◌≡◌, ◌≤◌, ◌&&◌, ◌||◌, ◌∷◌, [], List, length, IsTrue, IfOk, IfErr, IfSome, OnErr, OnOk, Some, None, option_map, is_none};
ghost use Rattle.go_points.specs.Grid.{same_colour};
ghost use Rattle.go_points.specs.Ply.{Ply, ply_of};
ghost use Rattle.target_game.specs.Legal.{legal, legal_turns};
ghost use Rattle.target_game.specs.Next.{next};
ghost use Rattle.target_game.specs.Wins.{is_winner};
ghost use Rattle.sgf_text.specs.Text.{is_forest};
ghost use Rattle.sgf_text.specs.Trees.{forest_of};
ghost use Rattle.tsumego_problem.specs.Walked.{StandsOn};
ghost use Rattle.solution_tree.specs.Below.{has_one_turn, carried, nodes_of};
ghost use Rattle.solution_tree.specs.Audit.{turn_fault, with_turn, rest_fault, turns_in, missing, reply_missing, has_children, has_several};
ghost use Rattle.solution_tree.specs.Questions.{follows, IsWhy, back};
ghost use Rattle.solution_tree.specs.Private.Asked.{Tells};

use crate::fault::AuditWhy;
use crate::given::Given;
use go_points::{Colour, Size, Turn};
use sgf_text::{SgfNode, Tree};
use target_game::{PlayState, TurnsLeft};
use tsumego_problem::{has_setup, turn_at, values_at};

/// Whether the node has exactly one value under B and W together, and no setup.
fn has_one_turn(node: &SgfNode) -> bool
    ensures { result ≡ has_one_turn node.now }
{
    let black = values_at(b"B", node).len();
    let white = values_at(b"W", node).len();
    (black == 1 && white == 0 || black == 0 && white == 1) && !has_setup(node)
}

/// The turn that the node carries, and whose it is.
fn carried(size: Size, node: &SgfNode) -> Option<(Colour, Turn)>
    ensures value { option_map (λ t. (t.0, ply_of size t.1)) result ≡ carried size node.now }
    ensures on_board { IfSome result (λ t. StandsOn size (ply_of size t.1)) }
{
    if has_one_turn(node) {
        turn_at(size, node)
    } else {
        None
    }
}

/// Checks the node as a turn (see `audit`), and makes the turn. Refused, nothing changes.
pub fn take_turn(state: &mut PlayState, node: &SgfNode) -> Result<Turn, AuditWhy>
    ensures asked { OnOk result
        (turn_fault state.old.state (carried state.old.state.game.size node.now) ≡ None) }
    ensures carried { IfOk result
        (λ t. carried state.old.state.game.size node.now
        ≡ Some (state.old.state.mover, ply_of state.old.state.game.size t)) }
    ensures on_board { IfOk result
        (λ t. StandsOn state.old.state.game.size (ply_of state.old.state.game.size t)) }
    ensures state { IfOk result
        (λ t. state.new ≡ record {
          state = next state.old.state (ply_of state.old.state.game.size t);
          before = state.old.state ∷ state.old.before;
        }) }
    ensures kept { OnErr result (state.new ≡ state.old) }
    ensures err { IfErr result
        (λ w. IsWhy state.old.state.game.size
        (turn_fault state.old.state (carried state.old.state.game.size node.now)) w) }
{
    let Some((colour, turn)) = carried(state.size(), node) else {
        return Err(AuditWhy::NoTurn);
    };
    let asked = turn;
    if colour != state.mover() {
        return Err(AuditWhy::WrongColour);
    }
    if state.over().is_some() {
        return Err(AuditWhy::AfterTheEnd);
    }
    match state.try_after(asked) {
        Ok(true) => Ok(turn),
        Ok(false) => Err(AuditWhy::TurnBarred),
        Err(_) => Err(AuditWhy::Memory),
    }
}

/// Whether anything follows a node.
fn has_children(nodes: &[SgfNode], children: &[Tree]) -> bool
    requires { IsTrue (is_forest (forest_of children.now)) }
    ensures { result ≡ has_children (follows nodes.now children.now) }
{
    !nodes.is_empty() || !children.is_empty()
}

/// Whether several nodes follow a node directly.
fn has_several(nodes: &[SgfNode], children: &[Tree]) -> bool
    requires { IsTrue (is_forest (forest_of children.now)) }
    ensures { result ≡ has_several (follows nodes.now children.now) }
{
    nodes.is_empty() && children.len() > 1
}

/// Adds the turn of a node to the set, if the node carries one.
fn add_turn(size: Size, given: &mut Given, node: &SgfNode)
    ensures { (turns : List Ply) → Tells size given.old turns
        → Tells size given.new (with_turn turns (carried size node.now)) }
{
    if let Some((_colour, turn)) = carried(size, node) {
        given.insert(turn);
    }
}

/// The turns of the first nodes of these trees.
fn turns_of_trees(size: Size, children: &[Tree]) -> Given
    ensures { Tells size result (turns_in size [] (nodes_of (forest_of children.now))) }
{
    let mut given = Given::new();
    let mut left = children;
    while let Some((child, others)) = left.split_first() {
        if let Some(node) = child.nodes().first() {
            add_turn(size, &mut given, node);
        }
        left = others;
    }
    given
}

/// The turns of the nodes that follow a node directly.
fn turns_given(size: Size, nodes: &[SgfNode], children: &[Tree]) -> Given
    ensures { Tells size result (turns_in size [] (follows nodes.now children.now)) }
{
    match nodes.first() {
        Some(node) => {
            let mut given = Given::new();
            add_turn(size, &mut given, node);
            given
        }
        None => turns_of_trees(size, children),
    }
}

/// The first legal turn that is not in the set.
fn missing_reply(state: &PlayState, given: &Given) -> Option<Turn>
    ensures { (turns : List Ply) → Tells state.now.state.game.size given.now turns
        → option_map (λ t. reply_missing (ply_of state.now.state.game.size t)) result
        ≡ missing turns (legal_turns state.now.state) }
{
    let mut turns_left = TurnsLeft::all();
    while let Some(turn) = state.next_left(&mut turns_left) {
        let asked = turn;
        if !given.has(asked) {
            return Some(turn);
        }
    }
    None
}

/// Whether the side has won, or play goes on with a child.
fn is_won_or_goes_on(winner: Colour, over: Option<Colour>, goes_on: bool) -> bool
    ensures { result ≡ (is_winner winner over || (goes_on && is_none over)) }
{
    match over {
        Some(colour) => colour == winner,
        None => goes_on,
    }
}

/// Whether the side is to move.
pub(crate) fn is_to_move(side: Colour, state: &PlayState) -> bool
    ensures { result ≡ same_colour state.now.state.mover side }
{
    state.mover() == side
}

/// Checks a node for what follows it (see `audit`): these nodes of its sequence, and then these child trees. The state is that after its
/// turn. It tries each legal turn of the other side.
pub fn ask_rest(
    winner: Colour,
    state: &PlayState,
    nodes: &[SgfNode],
    children: &[Tree],
) -> Result<(), AuditWhy>
    requires { IsTrue (is_forest (forest_of children.now)) }
    ensures ok { OnOk result (rest_fault winner state.now.state (follows nodes.now children.now)
        ≡ None) }
    ensures err { IfErr result
        (λ w. IsWhy state.now.state.game.size
        (rest_fault winner state.now.state (follows nodes.now children.now)) w) }
{
    let over = state.over();
    let is_own = is_to_move(winner, state);
    if !is_won_or_goes_on(winner, over, has_children(nodes, children)) {
        return Err(AuditWhy::NotWon);
    }
    if is_own && has_several(nodes, children) {
        return Err(AuditWhy::SeveralAnswers);
    }
    if is_own || over.is_some() {
        return Ok(());
    }
    match missing_reply(state, &turns_given(state.size(), nodes, children)) {
        Some(due) => Err(AuditWhy::ReplyMissing { due }),
        None => Ok(()),
    }
}

/// Takes this many turns back.
pub fn take_back(state: &mut PlayState, turns: usize)
    requires { turns ≤ length state.old.before }
    ensures { state.new ≡ back turns state.old }
{
    let mut left = turns;
    while left > 0 {
        state.back();
        left -= 1;
    }
}
