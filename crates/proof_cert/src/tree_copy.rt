//! Copies of trees.

ghost use Rattle.std.specs.Prelude.{◌≡◌, ℕ, IfOk};
ghost use Rattle.proof_cert.specs.Certificate.{node_of, replies_of};

use crate::certificate::Node;
use go_points::Turn;
use std::alloc::{AllocError, Global};

impl Node {
    /// The same tree, in memory of its own.
    pub fn copy(&self, alloc: Global) -> Result<Node, AllocError>
        ensures { IfOk result (λ node. (n : ℕ) → node_of n node ≡ node_of n self.now) }
    {
        copy_node(alloc, self)
    }
}

#[cycle(copy)]
#[tactic(auto, using(crate::proofs::Certificates::node_of_won, crate::proofs::Certificates::node_of_use, crate::proofs::Certificates::node_of_play, crate::proofs::Certificates::node_of_all))]
fn copy_node(alloc: Global, node: &Node) -> Result<Node, AllocError>
    ensures { IfOk result (λ copy. (n : ℕ) → node_of n copy ≡ node_of n node.now) }
{
    match node {
        Node::Won => Ok(Node::Won),
        Node::Use(lemma) => Ok(Node::Use(*lemma)),
        Node::Play(turn, below) => {
            let copy = copy_node(alloc, below)?;
            Ok(Node::Play(*turn, Box::new(alloc, copy)?))
        }
        Node::All(replies) => Ok(Node::All(copy_replies(alloc, replies.as_slice())?)),
    }
}

#[cycle(copy)]
fn copy_replies(alloc: Global, replies: &[(Turn, Node)]) -> Result<Vec<(Turn, Node)>, AllocError>
    ensures { IfOk result
        (λ copies. (n : ℕ) → replies_of n copies.items ≡ replies_of n replies.now) }
{
    let mut copies = Vec::new(alloc);
    for (turn, below) in replies {
        copies.push((*turn, copy_node(alloc, below)?))?;
    }
    Ok(copies)
}
