//! The audit of anyone's answer tree.

ghost use Rattle.std.specs.Prelude.{◌≡◌, ◌+◌, ℕ, List, [], Option, Some, None, Ok, IsTrue, IsSome, IfOk, IfErr, OnOk, length, Result as SpecResult};
ghost use Rattle.go_points.specs.declared.Colour.{Colour as SpecColour};
ghost use Rattle.go_points.specs.Ply.{Ply};
ghost use Rattle.target_game.specs.State.{start};
ghost use Rattle.sgf_text.specs.Text.{is_forest};
ghost use Rattle.sgf_text.specs.Trees.{Forest, tree_then, forest_of};
ghost use Rattle.tsumego_problem.specs.Walk.{problem_node};
ghost use Rattle.solution_tree.specs.Below.{nodes_of, count_nodes};
ghost use Rattle.solution_tree.specs.Audit.{Fault, first_line, faults_of, faults_below, unless_fault, audit};
ghost use Rattle.solution_tree.specs.Questions.{follows, Leads};
ghost use Rattle.solution_tree.specs.Private.Asked.{IsFound, Tells};
ghost use Rattle.solution_tree.specs.Faults.{IsFault};

use crate::fault::{AuditFault, AuditWhy};
use crate::first_line::first_line;
use crate::given::Given;
use crate::questions::{ask_rest, is_to_move, take_back, take_turn};
use go_points::Colour;
use sgf_text::{SgfNode, Tree};
use std::alloc::Global;
use target_game::{PlayState, Problem, State};
use tsumego_problem::{Mark, locate};

/// Memory was refused at the node with this number, or the number of the next node is more than a `usize` can hold: that many nodes
/// are more than memory can hold.
fn no_memory(node: usize) -> AuditFault
    ensures found { (n : ℕ) (o : Option Fault) → IsFound n o result }
    ensures fault { (n : ℕ) (r : SpecResult SpecColour Fault) → IsFault n r result }
{
    AuditFault {
        node,
        why: AuditWhy::Memory,
    }
}

/// Audits the rest of a sequence after the node with this number, without what follows its last node. The state is then that of the
/// last node, whose number is returned.
fn audit_nodes(
    winner: Colour,
    state: &mut PlayState,
    number: usize,
    nodes: &[SgfNode],
    children: &[Tree],
) -> Result<usize, AuditFault>
    requires { IsTrue (is_forest (forest_of children.now)) }
    ensures number { IfOk result (λ last. last ≡ number + length nodes.now) }
    ensures state { OnOk result (Leads (length nodes.now) state.old state.new) }
    ensures size { OnOk result (state.new.state.game.size ≡ state.old.state.game.size) }
    ensures ok { IfOk result
        (λ last. faults_of winner state.new.state last (nodes_of (forest_of children.now))
        ≡ faults_of winner state.old.state number (follows nodes.now children.now)) }
    ensures err { IfErr result
        (λ e. IsFound state.old.state.game.size
        (faults_of winner state.old.state number (follows nodes.now children.now)) e) }
{
    let mut last = number;
    let mut left = nodes;
    while let Some((node, rest)) = left.split_first() {
        if let Err(why) = ask_rest(winner, state, left, children) {
            return Err(AuditFault { node: last, why });
        }
        let Some(next) = last.checked_add(1) else {
            return Err(no_memory(last));
        };
        if let Err(why) = take_turn(state, node) {
            return Err(AuditFault { node: next, why });
        }
        last = next;
        left = rest;
    }
    Ok(last)
}

/// Audits what follows the node with this number: the rest of its sequence, and the child trees after it. The state is then as it
/// was. Returns the number of the last node.
#[cycle(audit)]
fn audit_sequence(
    winner: Colour,
    state: &mut PlayState,
    number: usize,
    nodes: &[SgfNode],
    children: &[Tree],
) -> Result<usize, AuditFault>
    requires { IsTrue (is_forest (forest_of children.now)) }
    ensures number { IfOk result
        (λ last. last ≡ number + count_nodes (follows nodes.now children.now)) }
    ensures state { OnOk result (state.new ≡ state.old) }
    ensures ok { OnOk result
        (faults_of winner state.old.state number (follows nodes.now children.now) ≡ None) }
    ensures err { IfErr result
        (λ e. IsFound state.old.state.game.size
        (faults_of winner state.old.state number (follows nodes.now children.now)) e) }
{
    let end = match audit_nodes(winner, state, number, nodes, children) {
        Ok(end) => end,
        Err(fault) => return Err(fault),
    };
    if let Err(why) = ask_rest(winner, state, &[], children) {
        return Err(AuditFault { node: end, why });
    }
    let last = match audit_children(winner, state, end, children) {
        Ok(last) => last,
        Err(fault) => return Err(fault),
    };
    take_back(state, nodes.len());
    Ok(last)
}

/// Audits the child trees of the node with this number. The state is then as it was. Returns the number of the last node.
#[cycle(audit)]
fn audit_children(
    winner: Colour,
    state: &mut PlayState,
    number: usize,
    children: &[Tree],
) -> Result<usize, AuditFault>
    requires { IsTrue (is_forest (forest_of children.now)) }
    ensures number { IfOk result
        (λ last. last ≡ number + count_nodes (nodes_of (forest_of children.now))) }
    ensures state { OnOk result (state.new ≡ state.old) }
    ensures ok { OnOk result
        (faults_below winner state.old.state [] (number + 1) (nodes_of (forest_of children.now))
        ≡ None) }
    ensures err { IfErr result
        (λ e. IsFound state.old.state.game.size
        (faults_below winner state.old.state [] (number + 1) (nodes_of (forest_of children.now)))
        e) }
{
    let mut given = Given::new();
    let mut last = number;
    let mut left = children;
    while let Some((child, others)) = left.split_first() {
        match audit_child(winner, state, last, &mut given, child) {
            Ok(end) => last = end,
            Err(fault) => return Err(fault),
        }
        left = others;
    }
    Ok(last)
}

/// Audits a child tree whose first node follows the node with this number. The earlier children have the turns of the set, and its
/// turn is added to them. The state is then as it was. Returns the number of the last node.
#[cycle(audit)]
fn audit_child(
    winner: Colour,
    state: &mut PlayState,
    number: usize,
    given: &mut Given,
    child: &Tree,
) -> Result<usize, AuditFault>
    ensures number { IfOk result (λ last. (others : Forest)
        → last + count_nodes (nodes_of others)
        ≡ number + count_nodes (nodes_of (tree_then child.now.nodes child.now.children others))) }
    ensures state { OnOk result (state.new ≡ state.old) }
    ensures ok { IfOk result (λ last. (earlier : List Ply) (others : Forest)
        → Tells state.old.state.game.size given.old earlier → (later : List Ply)
        × Tells state.old.state.game.size given.new later
        × (faults_below winner state.old.state later (last + 1) (nodes_of others)
        ≡ faults_below winner state.old.state earlier (number + 1)
        (nodes_of (tree_then child.now.nodes child.now.children others)))) }
    ensures err { IfErr result (λ e. (earlier : List Ply) (others : Forest)
        → Tells state.old.state.game.size given.old earlier
        → IsFound state.old.state.game.size
        (faults_below winner state.old.state earlier (number + 1)
        (nodes_of (tree_then child.now.nodes child.now.children others))) e) }
{
    let Some(next) = number.checked_add(1) else {
        return Err(no_memory(number));
    };
    let Some((node, rest)) = child.nodes().split_first() else {
        unreachable!()
    };
    let is_own = is_to_move(winner, state);
    let turn = match take_turn(state, node) {
        Ok(turn) => turn,
        Err(why) => return Err(AuditFault { node: next, why }),
    };
    let new = turn;
    if !is_own && given.has(turn) {
        return Err(AuditFault {
            node: next,
            why: AuditWhy::ReplyTwice,
        });
    }
    given.insert(new);
    let last = match audit_sequence(winner, state, next, rest, child.children()) {
        Ok(last) => last,
        Err(fault) => return Err(fault),
    };
    state.back();
    Ok(last)
}

/// Who has won at the end of the first line; or the line's first fault.
fn first_winner(
    alloc: Global,
    problem: &Problem,
    number: usize,
    nodes: &[SgfNode],
    children: &[Tree],
) -> Result<Colour, AuditFault>
    ensures ok { IfOk result
        (λ x. first_line number (start problem.now) (follows nodes.now children.now) ≡ Ok x) }
    ensures err { IfErr result
        (λ e. IsFault problem.now.game.size
        (first_line number (start problem.now) (follows nodes.now children.now)) e) }
{
    match State::of(alloc, problem) {
        Ok(state) => {
            let mut state = state;
            first_line(&mut state, number, nodes, children)
        }
        Err(_) => Err(no_memory(number)),
    }
}

/// Audits all nodes from the problem node on, for the side that has won in the first line.
fn audit_all(
    alloc: Global,
    problem: &Problem,
    winner: Colour,
    number: usize,
    nodes: &[SgfNode],
    children: &[Tree],
) -> Result<Colour, AuditFault>
    requires { IsTrue (is_forest (forest_of children.now)) }
    ensures ok { IfOk result
        (λ x. unless_fault (faults_of winner (start problem.now) number
        (follows nodes.now children.now)) winner ≡ Ok x) }
    ensures err { IfErr result
        (λ e. IsFault problem.now.game.size
        (unless_fault (faults_of winner (start problem.now) number
        (follows nodes.now children.now)) winner) e) }
{
    match State::of(alloc, problem) {
        Ok(state) => {
            let mut state = state;
            match audit_sequence(winner, &mut state, number, nodes, children) {
                Ok(_last) => Ok(winner),
                Err(fault) => Err(fault),
            }
        }
        Err(_) => Err(no_memory(number)),
    }
}

/// Who wins according to the tree below the problem node, or the first fault (this project's own).
///
/// Nodes have numbers from 0 at the root, in the order of their semicolons. First, the first children are followed down from the
/// problem node. Each node must have one turn of the board and no setup, the turn must be of the mover's colour, play must still go
/// on, and the turn must be legal. At the last node somebody must have won: that side is the one that is audited. Then the problem
/// node is checked for what follows it, and each node below it, in the order of the numbers, first as a turn and then for what
/// follows it. As a turn, it must pass the same four checks, and at the other side's move no earlier child of the same node may
/// have the same turn. For what follows: if there is no child or the game is over, the side must have won; if the side is to move,
/// there may be at most one child; and each legal turn of the other side must have a child.
///
/// `Memory` also stands for more nodes than a `usize` can count.
pub fn audit(alloc: Global, problem: &Problem, tree: &Tree) -> Result<Colour, AuditFault>
    requires { IsSome (problem_node tree.now) }
    ensures ok { IfOk result (λ x. audit problem.now tree.now ≡ Ok x) }
    ensures err { IfErr result (λ e. IsFault problem.now.game.size (audit problem.now tree.now) e) }
{
    let Some(
        Mark {
            number: Some(number),
            nodes,
            children,
        },
    ) = locate(tree)
    else {
        return Err(no_memory(0));
    };
    match first_winner(alloc, problem, number, nodes, children) {
        Ok(winner) => audit_all(alloc, problem, winner, number, nodes, children),
        Err(fault) => Err(fault),
    }
}
