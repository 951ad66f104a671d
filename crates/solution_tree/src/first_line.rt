//! The first line of a tree: who has won at its end.

ghost use Rattle.std.specs.Prelude.{◌≡◌, IfOk, IfErr, OnOk, Ok};
ghost use Rattle.target_game.specs.Over.{over};
ghost use Rattle.solution_tree.specs.Below.{Nodes, sequence};
ghost use Rattle.solution_tree.specs.Audit.{first_line};
ghost use Rattle.solution_tree.specs.Below.{no_node};
ghost use Rattle.solution_tree.specs.Questions.{follows};
ghost use Rattle.solution_tree.specs.Faults.{IsFault};

use crate::fault::{AuditFault, AuditWhy};
use crate::questions::take_turn;
use go_points::Colour;
use sgf_text::{SgfNode, Tree};
use target_game::PlayState;

/// Makes the turns of a sequence after the node with this number. Returns the number of its last node.
fn follow(state: &mut PlayState, number: usize, nodes: &[SgfNode]) -> Result<usize, AuditFault>
    ensures size { OnOk result (state.new.state.game.size ≡ state.old.state.game.size) }
    ensures ok { IfOk result (λ last. (below : Nodes)
        → first_line last state.new.state below
        ≡ first_line number state.old.state (sequence nodes.now below)) }
    ensures err { IfErr result (λ e. (below : Nodes)
        → IsFault state.old.state.game.size
        (first_line number state.old.state (sequence nodes.now below)) e) }
{
    let mut last = number;
    let mut left = nodes;
    while let Some((node, rest)) = left.split_first() {
        // More nodes than a `usize` can count are more than memory can hold.
        let Some(next) = last.checked_add(1) else {
            return Err(AuditFault {
                node: last,
                why: AuditWhy::Memory,
            });
        };
        if let Err(why) = take_turn(state, node) {
            return Err(AuditFault { node: next, why });
        }
        last = next;
        left = rest;
    }
    Ok(last)
}

/// Who has won at the node with this number.
fn won_at(number: usize, state: &PlayState) -> Result<Colour, AuditFault>
    ensures ok { IfOk result (λ x. first_line number state.now.state no_node ≡ Ok x) }
    ensures err { IfErr result
        (λ e. IsFault state.now.state.game.size (first_line number state.now.state no_node) e) }
{
    match state.over() {
        Some(colour) => Ok(colour),
        None => Err(AuditFault {
            node: number,
            why: AuditWhy::NotWon,
        }),
    }
}

/// Who has won at the end of the first line, from the node with this number on; or the line's first fault.
pub(crate) fn first_line(
    state: &mut PlayState,
    number: usize,
    nodes: &[SgfNode],
    children: &[Tree],
) -> Result<Colour, AuditFault>
    ensures ok { IfOk result
        (λ x. first_line number state.old.state (follows nodes.now children.now) ≡ Ok x) }
    ensures err { IfErr result
        (λ e. IsFault state.old.state.game.size
        (first_line number state.old.state (follows nodes.now children.now)) e) }
{
    let mut last = number;
    let mut line = nodes;
    let mut behind = children;
    loop {
        match follow(state, last, line) {
            Ok(end) => last = end,
            Err(fault) => return Err(fault),
        }
        let Some(child) = behind.first() else {
            return won_at(last, state);
        };
        line = child.nodes();
        behind = child.children();
    }
}
