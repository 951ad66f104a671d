//! The tree of a claim, written from proofs along a line of play.

use crate::claim::Lemmas;
use go_points::{Colour, Colouring, Turn};
use proof_cert::{MAX_NODES, Node};
use state_proofs::{Below, Branch, Form, Play, Proof, Proofs, Refusal};
use std::alloc::{AllocError, Global};

/// The number of a leaf in the place of that of a lemma, which are counted from 1: the defender lives there by the shape of his
/// stones.
const LEAF: u32 = 0;

/// A proof of the line of play whose node is written.
#[derive(Clone, Copy)]
struct Visit {
    proof: Proof,
    /// The place of the next branch.
    next: usize,
    /// Where the nodes after its branches begin.
    first: usize,
}

/// The writer of one tree, the main one or the body of a lemma, at a state of its own.
#[derive(Drop)]
pub(crate) struct Writer {
    play: Play,
    winner: Colour,
    /// The proof that the lemma is made from.
    lemma: Option<Proof>,
    visits: Vec<Visit>,
    /// The nodes that are written, each with the turn before it.
    written: Vec<(Turn, Node)>,
    nodes: u64,
    /// For a lemma, the results of the winner's moves.
    absent: Vec<Colouring>,
    /// For a lemma, the numbers of the lemmas that are used, as often as they are.
    used: Vec<u32>,
}

/// Adds a reference to each of the colourings.
fn refer_to<'a>(
    listed: &mut Vec<&'a Colouring>,
    colourings: &'a [Colouring],
) -> Result<(), AllocError> {
    for colouring in colourings {
        listed.push(colouring)?;
    }
    Ok(())
}

/// The colourings, in a list with no room to spare.
fn copied(alloc: Global, listed: &[&Colouring]) -> Result<Vec<Colouring>, AllocError> {
    let mut copied = Vec::with_capacity(alloc, listed.len())?;
    for colouring in listed {
        copied.push(**colouring)?;
    }
    Ok(copied)
}

impl Writer {
    /// The writer of the main tree. `begin_lemma` makes it one of the body of a lemma.
    pub(crate) fn of_main(alloc: Global, play: Play, winner: Colour) -> Writer {
        Writer {
            play,
            winner,
            lemma: None,
            visits: Vec::new(alloc),
            written: Vec::new(alloc),
            nodes: 0,
            absent: Vec::new(alloc),
            used: Vec::new(alloc),
        }
    }

    /// Begins the body of this proof's lemma, at the proof's state, and returns whether there is one with this colouring. What the
    /// proof needs to have occurred is known there.
    pub(crate) fn begin_lemma(&mut self, alloc: Global, proof: Proof, root: &Colouring) -> bool {
        self.winner = proof.winner;
        self.lemma = Some(proof);
        self.visits.clear();
        self.written.clear();
        self.nodes = 0;
        self.absent.clear();
        self.used.clear();
        let key = proof.key();
        self.play.restart(alloc, root, key.mover, key.passes)
    }

    /// The list of the lemma whose body has been written: ascending, each colouring once. It has what the lemmas that are used list.
    /// The lists that are joined have many colourings in common, so references to them are sorted, and what is left is copied.
    pub(crate) fn take_absent(
        &mut self,
        alloc: Global,
        lemmas: &Lemmas,
    ) -> Result<Vec<Colouring>, AllocError> {
        self.used.sort_unstable();
        self.used.dedup();
        let mut listed = Vec::new(alloc);
        refer_to(&mut listed, self.absent.as_slice())?;
        for number in self.used.as_slice() {
            if let Some(lemma) = lemmas.get(*number) {
                refer_to(&mut listed, lemma.absent.as_slice())?;
            }
        }
        // The lists that are joined ascend, so a sort that finds what is in order has little to do.
        listed.sort()?;
        listed.dedup();
        copied(alloc, listed.as_slice())
    }

    /// The tree of the proof, with uses of these lemmas below its first node. Refused if it would have more than the greatest
    /// number of nodes.
    pub(crate) fn write(
        &mut self,
        alloc: Global,
        proofs: &Proofs,
        lemmas: &Lemmas,
        root: u32,
    ) -> Result<Node, Refusal> {
        if self.lemma.is_none() {
            if let Some(number) = lemmas.of_proof(root) {
                return Ok(Node::Use(number));
            }
        }
        self.enter(proofs, root)?;
        for _ in 0..u64::MAX {
            let Some(visit) = self.visits.last().copied() else {
                return Err(Refusal::Fault);
            };
            match proofs.branch(visit.proof, visit.next) {
                Some(branch) => self.follow(proofs, lemmas, visit, branch)?,
                None => {
                    if let Some(node) = self.leave(alloc, proofs, visit)? {
                        return Ok(node);
                    }
                }
            }
        }
        Err(Refusal::Fault)
    }

    fn enter(&mut self, proofs: &Proofs, number: u32) -> Result<(), Refusal> {
        let Some(proof) = proofs.get(number) else {
            return Err(Refusal::Fault);
        };
        self.count_node()?;
        let visit = Visit {
            proof,
            next: 0,
            first: self.written.len(),
        };
        self.visits.push(visit)?;
        Ok(())
    }

    fn count_node(&mut self) -> Result<(), Refusal> {
        if self.nodes >= MAX_NODES as u64 {
            return Err(Refusal::Limit);
        }
        self.nodes += 1;
        Ok(())
    }

    /// Goes on to the next branch of the last proof.
    fn pass_on(&mut self) {
        let last = self.visits.len().saturating_sub(1);
        if last < self.visits.len() {
            self.visits[last].next = self.visits[last].next.saturating_add(1);
        }
    }

    /// Writes the branch, or goes down it. A reply that is not legal here is left out.
    fn follow(
        &mut self,
        proofs: &Proofs,
        lemmas: &Lemmas,
        visit: Visit,
        branch: Branch,
    ) -> Result<(), Refusal> {
        let turn = branch.turn;
        if !self.play.go(turn)? {
            if visit.proof.form == Form::Replies {
                self.pass_on();
                return Ok(());
            }
            return Err(Refusal::Fault);
        }
        if self.has_occurred(proofs, visit, turn) {
            self.play.back();
            self.pass_on();
            return Ok(());
        }
        self.list_result(visit, turn)?;
        match branch.below() {
            Below::Won => self.write_leaf(turn, Node::Won),
            Below::Proof(number) => match lemmas.of_proof(number) {
                None => self.enter(proofs, number),
                Some(lemma) => {
                    self.list_lemma(lemma)?;
                    self.write_leaf(turn, Node::Use(lemma))
                }
            },
        }
    }

    /// Whether the reply that was just made leads to a position that must have occurred before the lemma.
    fn has_occurred(&self, proofs: &Proofs, visit: Visit, turn: Turn) -> bool {
        if visit.proof.form != Form::Replies || turn == Turn::Pass {
            return false;
        }
        match self.lemma {
            Some(lemma) => {
                let position = self.play.key().position;
                proofs.had(lemma).binary_search(&position).is_ok()
            }
            None => false,
        }
    }

    /// Writes the node after the turn that was just made, takes the turn back, and goes on to the next branch.
    fn write_leaf(&mut self, turn: Turn, node: Node) -> Result<(), Refusal> {
        self.count_node()?;
        self.play.back();
        self.written.push((turn, node))?;
        self.pass_on();
        Ok(())
    }

    /// Lists the colouring that the winner's move has led to.
    fn list_result(&mut self, visit: Visit, turn: Turn) -> Result<(), Refusal> {
        if self.lemma.is_some() && turn != Turn::Pass && visit.proof.key().mover == self.winner {
            self.absent.push(self.play.colouring())?;
        }
        Ok(())
    }

    /// Notes that the lemma is used, whose list is part of that of a lemma which uses it.
    fn list_lemma(&mut self, number: u32) -> Result<(), Refusal> {
        if self.lemma.is_some() {
            self.used.push(number)?;
        }
        Ok(())
    }

    /// Writes the node of the last proof, all of whose branches are written. Returns the whole tree if it is the first.
    fn leave(
        &mut self,
        alloc: Global,
        proofs: &Proofs,
        visit: Visit,
    ) -> Result<Option<Node>, Refusal> {
        let node = self.node(alloc, visit)?;
        self.visits.pop();
        let Some(above) = self.visits.last().copied() else {
            return Ok(Some(node));
        };
        let Some(branch) = proofs.branch(above.proof, above.next) else {
            return Err(Refusal::Fault);
        };
        self.play.back();
        self.written.push((branch.turn, node))?;
        self.pass_on();
        Ok(None)
    }

    /// The node of the proof, made from the nodes after its branches.
    fn node(&mut self, alloc: Global, visit: Visit) -> Result<Node, Refusal> {
        if visit.first > self.written.len() {
            return Err(Refusal::Fault);
        }
        match visit.proof.form {
            Form::Replies => Ok(Node::All(self.written.split_off(visit.first)?)),
            Form::Turn => match self.written.pop() {
                Some((turn, below)) => Ok(Node::Play(turn, Box::new(alloc, below)?)),
                None => Ok(Node::Won),
            },
            Form::Alive => Ok(Node::Use(LEAF)),
            Form::Dead => Err(Refusal::Fault),
        }
    }
}
