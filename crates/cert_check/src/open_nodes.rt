//! The open nodes of a body: the replies of each that are still to come, and the turns that are to be taken back.

ghost use Rattle.std.specs.Prelude.{◌≡◌, length, reverse};
ghost use Rattle.std.specs.List.{All};
ghost use Rattle.proof_cert.specs.Lines.{all_line};
ghost use Rattle.cert_check.specs.Private.Inside.{Follows, HasRoom, MayBeMade, inside_of, owed_by, reply_at, TakesNode};
ghost use Rattle.cert_check.specs.Parts.{PassesOn, node_value, ordinary};

use crate::body::Body;
use crate::body_state::BodyState;
use crate::lemma_set::LemmaSet;
use crate::lines::NodeLine;
use crate::questions::{all_fault, make_turn, use_fault, won_fault};
use crate::reject::Why;
use arrayvec::ArrayVec;
use go_points::Turn;
use proof_cert::MAX_DEPTH;
use target_game::TurnsLeft;

/// The most turns that are made in a body.
pub(crate) const MOST_OPEN: usize = MAX_DEPTH as usize;

/// Which line is due in a body: that of a node; that of this reply, with the replies still to come after it; or `end`.
#[derive(Clone, Copy, Debug, PartialEq, Eq)]
pub(crate) enum Due {
    Node,
    Reply { due: Turn, left: TurnsLeft },
    End,
}

/// Takes turns back up to a node that still has a reply to come, which is then due. If there is none, up to the body's first state.
pub(crate) fn unwind(state: &mut BodyState, open_nodes: &mut ArrayVec<TurnsLeft, MOST_OPEN>) -> Due
    requires { Follows state.old.state.game state.old.before (reverse open_nodes.old.items) }
    ensures follows { Follows state.old.state.game state.new.before (reverse open_nodes.new.items) }
    ensures made { MayBeMade result state.new.state (length open_nodes.new.items) }
    ensures game { state.new.state.game ≡ state.old.state.game }
    ensures due { inside_of result state.new.state state.new.before (reverse open_nodes.new.items)
        ≡ reply_at (owed_by state.old.before (reverse open_nodes.old.items)) }
{
    let count = open_nodes.len();
    prove!(count <= MOST_OPEN);
    while let Some(node) = open_nodes.pop() {
        let mut left = node;
        state.back();
        if let Some(due) = state.play().next_left(&mut left) {
            return Due::Reply { due, left };
        }
    }
    Due::End
}

/// The line `all`.
fn take_all(
    body: &Body<'_>,
    state: &mut BodyState,
    open_nodes: &mut ArrayVec<TurnsLeft, MOST_OPEN>,
    replies: u32,
) -> Result<Due, Why>
    requires { HasRoom state.old open_nodes.old.items }
    ensures { TakesNode (ordinary body.now) (all_line replies)
        state.old open_nodes.old.items state.new open_nodes.new.items result }
{
    if let Some(why) = all_fault(body, state.play(), replies) {
        return Err(why);
    }
    let mut left = TurnsLeft::all();
    match state.play().next_left(&mut left) {
        Some(due) => Ok(Due::Reply { due, left }),
        None => unreachable!(),
    }
}

/// The line of a node at the present state, and what is due after it.
pub(crate) fn take_node(
    body: &Body<'_>,
    state: &mut BodyState,
    open_nodes: &mut ArrayVec<TurnsLeft, MOST_OPEN>,
    passed: &mut LemmaSet,
    node: NodeLine,
) -> Result<Due, Why>
    requires room { HasRoom state.old open_nodes.old.items }
    requires passed { All (PassesOn (ordinary body.now)) passed.old }
    ensures passed { All (PassesOn (ordinary body.now)) passed.new }
    ensures taken { TakesNode (ordinary body.now) (node_value state.old.state.game.size node)
        state.old open_nodes.old.items state.new open_nodes.new.items result }
{
    match node {
        NodeLine::Won => {
            if let Some(why) = won_fault(body, state.play()) {
                return Err(why);
            }
            Ok(unwind(state, open_nodes))
        }
        NodeLine::Use(lemma) => {
            let Ok(fault) = use_fault(body, passed, state, lemma) else {
                return Err(Why::Memory);
            };
            if let Some(why) = fault {
                return Err(why);
            }
            Ok(unwind(state, open_nodes))
        }
        NodeLine::Play(turn) => {
            let Ok(fault) = make_turn(body, state, turn) else {
                return Err(Why::Memory);
            };
            if let Some(why) = fault {
                return Err(why);
            }
            open_nodes.push(TurnsLeft::default());
            Ok(Due::Node)
        }
        NodeLine::All(replies) => take_all(body, state, open_nodes, replies),
    }
}
