//! A walk through the tree that a checked claim gives. The turns whose trees are not finished are on a stack of its own, so no line
//! of play is too long. One walk only counts turns and another one keeps the finished trees too.

ghost use Rattle.std.specs.Prelude.{◌≡◌, ◌+◌, ℕ, [], ◌∷◌, ◌++◌, true, None, IsTrue, IsFalse, IfOk, OnOk};
ghost use Rattle.go_points.specs.Ply.{ply_of};
ghost use Rattle.target_game.specs.Answers.{turn as then_turn, replies, answer_size, reply_sizes};
ghost use Rattle.target_game.specs.Over.{over};
ghost use Rattle.target_game.specs.State.{GameState};
ghost use Rattle.proof_cert.specs.Certificate as claim;
ghost use Rattle.solution_tree.specs.Answer.{answer_of, replies_of};
ghost use Rattle.solution_tree.specs.Private.Opened.{AreOpen, CanGoOn, CanOpen, Goes, IfFinished, MakesNext, branches_at, closed, due, is_use, later_of, lemma_count, replies_then, tree_at, uses_below, whole};

use crate::answer::Answer;
use cert_check::Checked;
use go_points::Turn;
use proof_cert::Node;
use std::alloc::{AllocError, Global};
use target_game::PlayState;

/// A turn whose tree is not finished.
#[derive(Drop)]
pub(crate) enum OpenTurn<'a> {
    /// The winner's turn.
    Made(Turn),
    /// A turn of the other side, with the replies before it, whose trees are finished, and those after it, not all of which are legal.
    Reply {
        done: Vec<(Turn, Answer)>,
        turn: Turn,
        later: &'a [(Turn, Node)],
    },
}

/// What belongs at the present state.
#[derive(Drop)]
pub(crate) enum Part<'a> {
    /// A node of the claim.
    Claimed(&'a Node),
    /// A finished tree.
    Finished(Answer),
}

/// The node, or the body of the lemma if the node uses one.
#[tactic(auto, using(proof_cert::proofs::Certificates::node_of_won, proof_cert::proofs::Certificates::node_of_play, proof_cert::proofs::Certificates::node_of_all))]
fn body_of<'a>(checked: &'a Checked, node: &'a Node) -> &'a Node
    requires { IsTrue (uses_below (lemma_count checked.now)
        (claim.node_of checked.now.certificate.size node.now)) }
    ensures same { (s : GameState)
        → tree_at checked.now (claim.node_of checked.now.certificate.size result.now) s
        ≡ tree_at checked.now (claim.node_of checked.now.certificate.size node.now) s }
    ensures below { IsTrue
        (uses_below (lemma_count checked.now)
        (claim.node_of checked.now.certificate.size result.now)) }
    ensures no_use { IsFalse (is_use (claim.node_of checked.now.certificate.size result.now)) }
{
    let _winner = checked.winner();
    let lemmas = checked.certificate().lemmas.as_slice();
    let mut part = node;
    let mut below = lemmas.len();
    loop {
        match part {
            Node::Won => return part,
            Node::Play(_, _) => return part,
            Node::All(_) => return part,
            Node::Use(lemma) => {
                below = *lemma as usize - 1;
                part = &lemmas[below].body;
            }
        }
    }
}

/// Makes the first legal one of the replies, and returns it with the replies after it.
#[tactic(auto, using(crate::proofs::NextReplies::replies_kept, crate::proofs::NextReplies::replies_left_out, crate::proofs::NextReplies::reply_below))]
fn make_next<'a>(
    state: &mut PlayState,
    replies: &'a [(Turn, Node)],
) -> Result<Option<(&'a (Turn, Node), &'a [(Turn, Node)])>, AllocError>
    requires { over state.old.state ≡ None }
    ensures { IfOk result (λ found. MakesNext state.old replies.now found state.new) }
{
    let mut rest = replies;
    loop {
        let Some((reply, others)) = rest.split_first() else {
            return Ok(None);
        };
        if state.try_after(reply.0)? {
            return Ok(Some((reply, others)));
        }
        rest = others;
    }
}

/// Makes the next legal reply. If there is none, the tree of the replies is finished.
fn go_on<'a>(
    checked: &Checked,
    state: &mut PlayState,
    opened: &mut Vec<OpenTurn<'a>>,
    done: Vec<(Turn, Answer)>,
    later: &'a [(Turn, Node)],
) -> Result<Part<'a>, AllocError>
    requires turns { AreOpen checked.now opened.old.items state.old }
    requires later { CanGoOn checked.now state.old.state
        (claim.replies_of checked.now.certificate.size later.now) }
    ensures goes { IfOk result (λ p. Goes true checked.now
        (whole checked.now opened.old.items state.old
        (replies (replies_then (replies_of checked.now.certificate.size done.items)
        (branches_at checked.now (claim.replies_of checked.now.certificate.size later.now)
        state.old.state))))
        (reply_sizes (branches_at checked.now
        (claim.replies_of checked.now.certificate.size later.now) state.old.state)
        + due checked.now opened.old.items state.old)
        p opened.new.items state.new) }
    ensures finished { IfOk result (λ p. IfFinished p (opened.new.items ≡ opened.old.items)) }
{
    let Some((reply, others)) = make_next(state, later)? else {
        return Ok(Part::Finished(Answer::Replies(done)));
    };
    opened.push(OpenTurn::Reply {
        done,
        turn: reply.0,
        later: others,
    })?;
    Ok(Part::Claimed(&reply.1))
}

/// Makes the node's first turn. If it has none, its tree is finished.
#[tactic(auto, using(proof_cert::proofs::Certificates::node_of_use))]
fn open_node<'a>(
    alloc: Global,
    checked: &Checked,
    node: &'a Node,
    state: &mut PlayState,
    opened: &mut Vec<OpenTurn<'a>>,
) -> Result<Part<'a>, AllocError>
    requires turns { AreOpen checked.now opened.old.items state.old }
    requires node { CanOpen checked.now state.old.state
        (claim.node_of checked.now.certificate.size node.now) }
    requires no_use { IsFalse (is_use (claim.node_of checked.now.certificate.size node.now)) }
    ensures { IfOk result (λ p. Goes true checked.now
        (whole checked.now opened.old.items state.old (tree_at checked.now
        (claim.node_of checked.now.certificate.size node.now) state.old.state))
        (answer_size (tree_at checked.now
        (claim.node_of checked.now.certificate.size node.now) state.old.state)
        + due checked.now opened.old.items state.old)
        p opened.new.items state.new) }
{
    match node {
        Node::Won => Ok(Part::Finished(Answer::Won)),
        Node::Use(_) => unreachable!(),
        Node::Play(turn, below) => {
            opened.push(OpenTurn::Made(*turn))?;
            state.after(*turn)?;
            Ok(Part::Claimed(below))
        }
        Node::All(replies) => go_on(checked, state, opened, Vec::new(alloc), replies.as_slice()),
    }
}

/// The turn with the tree below it, if trees are kept; otherwise any tree that takes no memory more.
fn with_turn(alloc: Global, keep: bool, turn: Turn, below: Answer) -> Result<Answer, AllocError>
    ensures { IfOk result (λ a. IsTrue keep → (n : ℕ)
        → answer_of n a ≡ then_turn (ply_of n turn) (answer_of n below)) }
{
    if !keep {
        return Ok(below);
    }
    Ok(Answer::Turn(turn, Box::new(alloc, below)?))
}

/// Adds the reply with the tree below it, if trees are kept.
fn add_reply(
    keep: bool,
    done: &mut Vec<(Turn, Answer)>,
    turn: Turn,
    below: Answer,
) -> Result<(), AllocError>
    ensures { OnOk result (IsTrue keep → done.new.items ≡ done.old.items ++ (turn, below) ∷ []) }
{
    if !keep {
        return Ok(());
    }
    done.push((turn, below))?;
    Ok(())
}

/// Puts a finished tree below the turn that was made last, at the state before that turn.
fn put_below<'a>(
    alloc: Global,
    keep: bool,
    checked: &Checked,
    last: OpenTurn<'a>,
    tree: Answer,
    state: &mut PlayState,
    opened: &mut Vec<OpenTurn<'a>>,
) -> Result<Part<'a>, AllocError>
    requires turns { AreOpen checked.now opened.old.items state.old }
    requires last { CanGoOn checked.now state.old.state (later_of checked.now last) }
    ensures goes { IfOk result (λ p. Goes keep checked.now
        (whole checked.now opened.old.items state.old
        (closed checked.now last.entry state.old.state
        (answer_of checked.now.certificate.size tree)))
        (reply_sizes (branches_at checked.now (later_of checked.now last.entry) state.old.state)
        + due checked.now opened.old.items state.old)
        p opened.new.items state.new) }
    ensures finished { IfOk result (λ p. IfFinished p (opened.new.items ≡ opened.old.items)) }
{
    match last {
        OpenTurn::Made(turn) => Ok(Part::Finished(with_turn(alloc, keep, turn, tree)?)),
        OpenTurn::Reply {
            mut done,
            turn,
            later,
        } => {
            add_reply(keep, &mut done, turn, tree)?;
            go_on(checked, state, opened, done, later)
        }
    }
}

/// Takes back the turns above a finished tree, up to one that has a further reply, which is made.
fn close<'a>(
    alloc: Global,
    keep: bool,
    checked: &Checked,
    finished: Answer,
    state: &mut PlayState,
    opened: &mut Vec<OpenTurn<'a>>,
) -> Result<Part<'a>, AllocError>
    requires { AreOpen checked.now opened.old.items state.old }
    ensures goes { IfOk result (λ p. Goes keep checked.now
        (whole checked.now opened.old.items state.old
        (answer_of checked.now.certificate.size finished))
        (due checked.now opened.old.items state.old) p opened.new.items state.new) }
    ensures finished { IfOk result (λ p. IfFinished p (opened.new.items ≡ [])) }
{
    let mut tree = finished;
    loop {
        let Some(last) = opened.pop() else {
            return Ok(Part::Finished(tree));
        };
        state.back();
        match put_below(alloc, keep, checked, last, tree, state, opened)? {
            Part::Finished(finished) => tree = finished,
            part => return Ok(part),
        }
    }
}

/// Walks from a node to the next turn, below which it has to go on, or to the end of the whole tree.
pub(crate) fn step<'a>(
    alloc: Global,
    keep: bool,
    checked: &'a Checked,
    node: &'a Node,
    state: &mut PlayState,
    opened: &mut Vec<OpenTurn<'a>>,
) -> Result<Part<'a>, AllocError>
    requires turns { AreOpen checked.now opened.old.items state.old }
    requires node { CanOpen checked.now state.old.state
        (claim.node_of checked.now.certificate.size node.now) }
    ensures goes { IfOk result (λ p. Goes keep checked.now
        (whole checked.now opened.old.items state.old (tree_at checked.now
        (claim.node_of checked.now.certificate.size node.now) state.old.state))
        (answer_size (tree_at checked.now
        (claim.node_of checked.now.certificate.size node.now) state.old.state)
        + due checked.now opened.old.items state.old)
        p opened.new.items state.new) }
    ensures finished { IfOk result (λ p. IfFinished p (opened.new.items ≡ [])) }
{
    let node = body_of(checked, node);
    match open_node(alloc, checked, node, state, opened)? {
        Part::Finished(tree) => close(alloc, keep, checked, tree, state, opened),
        part => Ok(part),
    }
}
