//! Claims that begin with a turn.

use go_points::{Colour, Size, Turn};
use proof_cert::{Certificate, Lemma, MAX_DEPTH, Node, Version};
use solution_tree::Answer;
use std::alloc::{AllocError, Global};

/// The claim that this side wins by the turn, after which it has won.
pub(crate) fn winning_turn(
    alloc: Global,
    size: Size,
    winner: Colour,
    turn: Turn,
) -> Result<Certificate, AllocError> {
    Ok(Certificate {
        version: Version::One,
        size,
        winner,
        lemmas: Vec::new(alloc),
        main: Node::Play(turn, Box::new(alloc, Node::Won)?),
    })
}

/// The claim that begins with the turn and goes on like another claim.
pub(crate) fn turn_before(
    alloc: Global,
    turn: Turn,
    later: &Certificate,
) -> Result<Certificate, AllocError> {
    let main = copy_node(alloc, &later.main)?;
    Ok(Certificate {
        version: later.version,
        size: later.size,
        winner: later.winner,
        lemmas: copy_lemmas(alloc, later.lemmas.as_slice())?,
        main: Node::Play(turn, Box::new(alloc, main)?),
    })
}

/// The claim that this side wins by the answer tree, without lemmas. `None` if a line of the tree is too long for a claim.
pub(crate) fn claim_by(
    alloc: Global,
    size: Size,
    winner: Colour,
    answer: &Answer,
) -> Result<Option<Certificate>, AllocError> {
    let Some(main) = node_by(alloc, answer, MAX_DEPTH)? else {
        return Ok(None);
    };
    Ok(Some(Certificate {
        version: Version::One,
        size,
        winner,
        lemmas: Vec::new(alloc),
        main,
    }))
}

/// The answer tree as a node. `None` if it is deeper than `depth` nodes; it recurses no deeper than that.
fn node_by(alloc: Global, answer: &Answer, depth: u32) -> Result<Option<Node>, AllocError> {
    if depth == 0 {
        return Ok(None);
    }
    match answer {
        Answer::Won => Ok(Some(Node::Won)),
        Answer::Turn(turn, below) => match node_by(alloc, below, depth - 1)? {
            Some(node) => Ok(Some(Node::Play(*turn, Box::new(alloc, node)?))),
            None => Ok(None),
        },
        Answer::Replies(replies) => {
            let mut nodes = Vec::new(alloc);
            for (turn, below) in replies {
                let Some(node) = node_by(alloc, below, depth - 1)? else {
                    return Ok(None);
                };
                nodes.push((*turn, node))?;
            }
            Ok(Some(Node::All(nodes)))
        }
    }
}

/// A copy of the lemmas.
fn copy_lemmas(alloc: Global, lemmas: &[Lemma]) -> Result<Vec<Lemma>, AllocError> {
    let mut copy = Vec::new(alloc);
    for i in 0..lemmas.len() {
        copy.push(copy_lemma(alloc, &lemmas[i])?)?;
    }
    Ok(copy)
}

/// A copy of the lemma.
fn copy_lemma(alloc: Global, lemma: &Lemma) -> Result<Lemma, AllocError> {
    Ok(Lemma {
        mover: lemma.mover,
        passes: lemma.passes,
        root: lemma.root,
        had: lemma.had.as_slice().to_vec(alloc)?,
        absent: lemma.absent.as_slice().to_vec(alloc)?,
        body: copy_node(alloc, &lemma.body)?,
    })
}

/// A copy of the tree. It recurses as deep as the claim is, which is at most 2,000.
fn copy_node(alloc: Global, node: &Node) -> Result<Node, AllocError> {
    match node {
        Node::Won => Ok(Node::Won),
        Node::Use(number) => Ok(Node::Use(*number)),
        Node::Play(turn, below) => {
            let below = copy_node(alloc, below)?;
            Ok(Node::Play(*turn, Box::new(alloc, below)?))
        }
        Node::All(replies) => {
            let mut copy = Vec::new(alloc);
            for (turn, below) in replies {
                copy.push((*turn, copy_node(alloc, below)?))?;
            }
            Ok(Node::All(copy))
        }
    }
}
