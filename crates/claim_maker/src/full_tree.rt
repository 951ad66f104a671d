//! The tree that full search found, as proofs without conditions.

use go_points::{Colour, Turn};
use proof_cert::Node;
use state_proofs::{Below, Branch, Form, Line, Play, Proofs, Refusal, Settled, Shared, share};
use std::alloc::Global;
use target_game::Problem;

/// Adds a proof for each node of the tree at a state where nobody has won, and returns what is there. The tree is at most 201 deep,
/// as full search makes it.
#[cycle(full_tree)]
fn note_tree(
    alloc: Global,
    proofs: &mut Proofs,
    play: &mut Play,
    winner: Colour,
    node: &Node,
) -> Result<Below, Refusal> {
    match node {
        Node::Won => Ok(Below::Won),
        // Full search uses no lemma, so this never happens.
        Node::Use(_) => Err(Refusal::Fault),
        Node::Play(turn, below) => {
            let mut branches = Vec::new(alloc);
            branches.push(branch_by(alloc, proofs, play, winner, *turn, below)?)?;
            add(proofs, play, winner, Form::Turn, branches.as_slice())
        }
        Node::All(replies) => {
            let mut branches = Vec::new(alloc);
            for reply in replies.as_slice() {
                let branch = branch_by(alloc, proofs, play, winner, reply.0, &reply.1)?;
                branches.push(branch)?;
            }
            add(proofs, play, winner, Form::Replies, branches.as_slice())
        }
    }
}

/// The branch of the turn. The proofs of what is below it are added.
#[cycle(full_tree)]
fn branch_by(
    alloc: Global,
    proofs: &mut Proofs,
    play: &mut Play,
    winner: Colour,
    turn: Turn,
    below: &Node,
) -> Result<Branch, Refusal> {
    let made = turn;
    // The tree has only legal turns, so the turn is always made.
    if !play.go(made)? {
        return Err(Refusal::Fault);
    }
    let noted = note_tree(alloc, proofs, play, winner, below)?;
    play.back();
    Ok(Branch::of(turn, noted))
}

/// Adds the proof of the state by these branches.
fn add(
    proofs: &mut Proofs,
    play: &Play,
    winner: Colour,
    form: Form,
    branches: &[Branch],
) -> Result<Below, Refusal> {
    let settled = Settled {
        key: play.key(),
        winner,
        form,
        is_expanded: true,
    };
    Ok(Below::Proof(proofs.add(settled, branches, None, &[])?))
}

/// Adds the proofs of the tree of the problem, and returns the number of the proof of its root.
fn note_whole(
    alloc: Global,
    proofs: &mut Proofs,
    problem: &Problem,
    winner: Colour,
    main: &Node,
) -> Result<u32, Refusal> {
    let mut play = Play::of(alloc, problem)?;
    match note_tree(alloc, proofs, &mut play, winner, main)? {
        Below::Proof(root) => Ok(root),
        Below::Won => Err(Refusal::Fault),
    }
}

/// The proofs of this tree of the problem, by which the side wins. The tree is at most 201 deep, and uses no lemma.
pub fn share_tree(
    alloc: Global,
    problem: &Problem,
    winner: Colour,
    main: &Node,
) -> Result<Shared, Refusal> {
    let mut proofs = Proofs::new(alloc);
    let root = note_whole(alloc, &mut proofs, problem, winner, main)?;
    let line = Line::of(alloc, problem)?;
    share(alloc, line, proofs, root)
}
