//! The results of the moves in a checked claim's tree, gathered on a walk over the tree.

ghost use Rattle.std.specs.Prelude.{◌≡◌, ◌++◌, IfOk, Some, map, filter};
ghost use Rattle.go_points.specs.Grid.{points};
ghost use Rattle.target_game.specs.State.{GameState, start};
ghost use Rattle.proof_cert.specs.Claim.{node_count};
ghost use Rattle.proof_cert.specs.Certificate.{claim_of, node_of, replies_of};
ghost use Rattle.cert_check.specs.Body.{is_open, result_of};
ghost use Rattle.cert_check.specs.Lift.{play_results, reply_results};
ghost use Rattle.cert_check.specs.Private.Results.{ArePlayable, AreOpen, IsPlayable, IsPlayablePart, due_at, gathered, is_past, joined, left_at, reversed};

use crate::held_claim::Checked;
use go_points::{Colouring, Turn};
use proof_cert::Node;
use std::alloc::{AllocError, Global};
use target_game::{PlayState, State};

/// The results of the moves in a tree, in the order of the tree.
#[derive(Drop)]
pub(crate) struct Results {
    /// The results of the winner's moves.
    pub(crate) plays: Vec<Colouring>,
    /// The colourings that moves of the other side at empty points would give, as far as those had occurred before the problem's
    /// present position.
    pub(crate) barred: Vec<Colouring>,
    /// How many nodes the tree has.
    pub(crate) nodes: u32,
}

/// The replies at a state on the way whose trees are still to be walked.
#[derive(Clone, Copy)]
pub(crate) struct Later<'a> {
    replies: &'a [(Turn, Node)],
}

/// Makes the next reply that is due, here or at the latest earlier state that has one, and returns its tree. `None` if all have
/// been walked.
fn next_reply<'a>(
    due: &'a [(Turn, Node)],
    state: &mut PlayState,
    opened: &mut Vec<Later<'a>>,
) -> Result<Option<&'a Node>, AllocError>
    requires playable { ArePlayable state.old.state (replies_of state.old.state.game.size due.now) }
    requires opened { AreOpen (reversed opened.old.items) state.old.before }
    ensures playable { IfOk result (λ part. IsPlayablePart state.new.state part) }
    ensures opened { IfOk result (λ part. AreOpen (reversed opened.new.items) state.new.before) }
    ensures left { IfOk result (λ part. (past : GameState)
        → left_at past state.new opened.new.items part
        ≡ due_at past state.old opened.old.items due.now) }
{
    let mut due = due;
    loop {
        if let Some((reply, replies)) = due.split_first() {
            opened.push(Later { replies })?;
            state.after(reply.0)?;
            return Ok(Some(&reply.1));
        }
        let Some(later) = opened.pop() else {
            return Ok(None);
        };
        state.back();
        due = later.replies;
    }
}

/// Whether the colouring had occurred at the problem's start, and is not the one on the board there.
fn is_other_past(past: &PlayState, colouring: &Colouring) -> bool
    ensures { result ≡ is_past past.now.state colouring.now }
{
    past.holds(colouring).is_some() && *colouring != past.colouring()
}

/// Adds the results that the mover's moves at the empty points of the region would have, as far as they are in the past.
fn add_barred(
    past: &PlayState,
    state: &PlayState,
    barred: &mut Vec<Colouring>,
) -> Result<(), AllocError>
    ensures { IfOk result
        (λ _. barred.new.items
        ≡ barred.old.items ++ filter (is_past past.now.state)
        (map (result_of state.now.state)
        (filter (is_open state.now.state) (points state.now.state.game.size)))) }
{
    let size = state.size();
    for number in 0..size.area() {
        let point = size.point_at(number);
        if state.is_open(point) {
            let result = state.result(point);
            if is_other_past(past, &result) {
                barred.push(result)?;
            }
        }
    }
    Ok(())
}

/// Adds the results of the node's own turn or replies, makes its turn or the next reply that is due, and returns the tree there.
/// `None` if all have been walked.
fn step<'a>(
    past: &PlayState,
    node: &'a Node,
    state: &mut PlayState,
    opened: &mut Vec<Later<'a>>,
    plays: &mut Vec<Colouring>,
    barred: &mut Vec<Colouring>,
) -> Result<Option<&'a Node>, AllocError>
    requires playable { IsPlayable state.old.state (node_of state.old.state.game.size node.now) }
    requires opened { AreOpen (reversed opened.old.items) state.old.before }
    ensures playable { IfOk result (λ part. IsPlayablePart state.new.state part) }
    ensures opened { IfOk result (λ part. AreOpen (reversed opened.new.items) state.new.before) }
    ensures left { IfOk result
        (λ part. joined (gathered plays.new.items barred.new.items 1)
        (left_at past.now.state state.new opened.new.items part)
        ≡ joined (gathered plays.old.items barred.old.items 0)
        (left_at past.now.state state.old opened.old.items (Some node.entry))) }
{
    match node {
        Node::Won => next_reply(&[], state, opened),
        Node::Use(_) => next_reply(&[], state, opened),
        Node::Play(turn, below) => {
            opened.push(Later { replies: &[] })?;
            state.after(*turn)?;
            match turn {
                Turn::Pass => {}
                Turn::At(_) => plays.push(state.colouring())?,
            }
            Ok(Some(below))
        }
        Node::All(replies) => {
            add_barred(past, state, barred)?;
            next_reply(replies.as_slice(), state, opened)
        }
    }
}

/// The results of the moves in the claim's tree. It takes the time to play through the tree, with a move at each empty point of the
/// region wherever the other side is to move.
pub(crate) fn results_of(alloc: Global, checked: &Checked) -> Result<Results, AllocError>
    ensures plays { IfOk result
        (λ r. r.plays.items ≡ play_results (start checked.now.problem)
        (claim_of checked.now.certificate).main) }
    ensures barred { IfOk result
        (λ r. r.barred.items ≡ filter (is_past (start checked.now.problem))
        (reply_results (start checked.now.problem) (claim_of checked.now.certificate).main)) }
    ensures nodes { IfOk result
        (λ r. r.nodes ≡ node_count (claim_of checked.now.certificate).main) }
{
    let _winner = checked.winner();
    let problem = checked.problem();
    let past: PlayState = State::of(alloc, problem)?;
    let mut state: PlayState = State::of(alloc, problem)?;
    let mut opened = Vec::new(alloc);
    let mut plays = Vec::new(alloc);
    let mut barred = Vec::new(alloc);
    let mut nodes: u32 = 0;
    let mut node = &checked.certificate().main;
    loop {
        nodes += 1;
        let next = step(
            &past,
            node,
            &mut state,
            &mut opened,
            &mut plays,
            &mut barred,
        )?;
        let Some(below) = next else {
            return Ok(Results {
                plays,
                barred,
                nodes,
            });
        };
        node = below;
    }
}
