//! The claim of shared proofs: lemmas for proofs that are used several times, and the main tree.

use crate::lemma_choice::{LemmaChoice, take_nodes};
use crate::tree::Writer;
use go_points::Colouring;
use proof_cert::{Certificate, Lemma, MAX_LEMMAS, MAX_LISTED, Version};
use state_proofs::{Below, Branch, Line, Play, Proof, Proofs, Refusal, Shared};
use std::alloc::{AllocError, Global};
use target_game::Problem;

/// Which proofs may become lemmas.
#[derive(Clone, Copy, Debug, PartialEq, Eq)]
pub enum Pasts {
    /// Including those that leave out a move which the past bars.
    Needed,
    /// Only those that need no past.
    None,
}

/// How many nodes a lemma has to save for each colouring that it has: its root, and those that it lists. It saves the nodes of its
/// body for each branch that leads to its proof but one. On 19 rows a colouring takes as many bytes as some twenty nodes, and each
/// use of a lemma compares lists.
#[derive(Clone, Copy, Debug, PartialEq, Eq)]
pub enum Saving {
    /// Any number.
    Any,
    /// At least one for every two colourings.
    Half,
    /// At least four.
    Four,
}

impl Saving {
    /// The greatest number of colourings of a lemma that saves so many nodes, if there is one.
    pub(crate) fn most_colourings(self, saved: u64) -> Option<u64> {
        match self {
            Saving::Any => None,
            Saving::Half => Some(saved.saturating_mul(2)),
            Saving::Four => Some(saved / 4),
        }
    }
}

/// Which of the proofs that are used several times become lemmas.
#[derive(Clone, Copy)]
pub struct Choice {
    pub pasts: Pasts,
    /// The least number of turns that such a proof must have.
    pub least: u64,
    pub saving: Saving,
    /// Where none of them would become a lemma, the lowest one with at least so many turns does, whatever it saves.
    pub otherwise: Option<u64>,
}

/// The lemmas, and the proof of each.
#[derive(Drop)]
pub(crate) struct Lemmas {
    pub(crate) made: Vec<Lemma>,
    version: Version,
    /// For each proof, the number of its lemma, counted from 1.
    numbers: Vec<u32>,
    /// How many colourings are listed.
    listed: usize,
}

impl Lemmas {
    /// The number of the proof's lemma.
    pub(crate) fn of_proof(&self, proof: u32) -> Option<u32> {
        match self.numbers.get(proof as usize).copied() {
            Some(number) if number > 0 => Some(number),
            _ => None,
        }
    }

    /// The lemma with this number.
    pub(crate) fn get(&self, number: u32) -> Option<&Lemma> {
        self.made.get((number as usize).checked_sub(1)?)
    }
}

/// The walk over the proofs that makes the lemmas. Each proof is met once, lower ones first.
#[derive(Drop)]
struct Walk {
    line: Line,
    /// The colourings that have occurred at the end of the line, in the order of the line's past.
    occurred: Vec<Colouring>,
    /// Whether a proof was met.
    met: Vec<bool>,
    choice: LemmaChoice,
    visits: Vec<Visit>,
    lemmas: Lemmas,
}

/// A proof of the line of play, with the place of its next branch.
#[derive(Clone, Copy)]
struct Visit {
    number: u32,
    proof: Proof,
    next: usize,
}

impl Walk {
    fn new(
        alloc: Global,
        problem: &Problem,
        proofs: &Proofs,
        choice: LemmaChoice,
    ) -> Result<Walk, AllocError> {
        let mut met = Vec::with_capacity(alloc, proofs.len())?;
        let mut numbers = Vec::with_capacity(alloc, proofs.len())?;
        for _ in 0..proofs.len() {
            met.push(false)?;
            numbers.push(0)?;
        }
        Ok(Walk {
            line: Line::of(alloc, problem)?,
            occurred: problem.history().to_vec(alloc)?,
            met,
            choice,
            visits: Vec::new(alloc),
            lemmas: Lemmas {
                made: Vec::new(alloc),
                version: Version::One,
                numbers,
                listed: 0,
            },
        })
    }

    /// Meets the proof of the state at the end of the line.
    fn enter(&mut self, proofs: &Proofs, number: u32) -> Result<(), Refusal> {
        let Some(proof) = proofs.get(number) else {
            return Err(Refusal::Fault);
        };
        let place = number as usize;
        if place < self.met.len() {
            self.met[place] = true;
        }
        let visit = Visit {
            number,
            proof,
            next: 0,
        };
        self.visits.push(visit)?;
        Ok(())
    }

    /// Walks over the proof and everything below it; `bodies` writes the bodies. The walk is borrowed, so no exit from the loop has to
    /// account for dropping it.
    fn make_lemmas(
        &mut self,
        alloc: Global,
        bodies: &mut Writer,
        proofs: &Proofs,
        root: u32,
    ) -> Result<(), Refusal> {
        self.enter(proofs, root)?;
        for _ in 0..u64::MAX {
            let Some(visit) = self.visits.last().copied() else {
                return Ok(());
            };
            match proofs.branch(visit.proof, visit.next) {
                Some(branch) => self.follow(proofs, branch)?,
                None => self.leave(alloc, bodies, proofs, visit)?,
            }
        }
        Err(Refusal::Fault)
    }

    fn into_lemmas(self) -> Lemmas {
        self.lemmas
    }

    /// Goes down the branch if it leads to a proof that has not been met.
    fn follow(&mut self, proofs: &Proofs, branch: Branch) -> Result<(), Refusal> {
        let last = self.visits.len().saturating_sub(1);
        if last < self.visits.len() {
            self.visits[last].next = self.visits[last].next.saturating_add(1);
        }
        let turn = branch.turn;
        let Below::Proof(number) = branch.below() else {
            return Ok(());
        };
        if self.met.get(number as usize).copied() != Some(false) {
            return Ok(());
        }
        let Some(proof) = proofs.get(number) else {
            return Err(Refusal::Fault);
        };
        self.line.go(turn, proof.key())?;
        if self.line.past().len() > self.occurred.len() {
            self.occurred.push(self.line.play().colouring())?;
        }
        self.enter(proofs, number)
    }

    /// Leaves the last proof, all of whose branches were followed, and makes its lemma if it is to be one.
    fn leave(
        &mut self,
        alloc: Global,
        bodies: &mut Writer,
        proofs: &Proofs,
        visit: Visit,
    ) -> Result<(), Refusal> {
        self.visits.pop();
        if self.choice.is_lemma(visit.number) {
            self.add_lemma(alloc, bodies, proofs, visit)?;
        }
        self.line.back();
        self.occurred.truncate(self.line.past().len());
        Ok(())
    }

    /// The colourings that the proof of the state at the end of the line needs to have occurred, ascending.
    fn had(&self, alloc: Global, proofs: &Proofs, proof: Proof) -> Result<Vec<Colouring>, Refusal> {
        let mut had = Vec::new(alloc);
        for position in proofs.had(proof) {
            match self.occurred_at(*position) {
                Some(colouring) => had.push(colouring)?,
                None => return Err(Refusal::Fault),
            }
        }
        had.sort_unstable();
        had.dedup();
        Ok(had)
    }

    /// The colouring of the position, if it has occurred.
    fn occurred_at(&self, position: u64) -> Option<Colouring> {
        let place = self.line.past().place_of(position)?;
        self.occurred.get(place).copied()
    }

    /// Makes the lemma of the proof of the state at the end of the line.
    fn add_lemma(
        &mut self,
        alloc: Global,
        bodies: &mut Writer,
        proofs: &Proofs,
        visit: Visit,
    ) -> Result<(), Refusal> {
        let key = visit.proof.key();
        let root = self.line.play().colouring();
        if !bodies.begin_lemma(alloc, visit.proof, &root) {
            return Err(Refusal::Memory);
        }
        let body = bodies.write(alloc, proofs, &self.lemmas, visit.number)?;
        let had = self.had(alloc, proofs, visit.proof)?;
        let absent = bodies.take_absent(alloc, &self.lemmas)?;
        let own = had.len().saturating_add(absent.len());
        let listed = self.lemmas.listed.saturating_add(own);
        if self.lemmas.made.len() >= MAX_LEMMAS || listed > MAX_LISTED as usize {
            return Err(Refusal::Limit);
        }
        if !had.is_empty() {
            self.lemmas.version = Version::Two;
        }
        let lemma = Lemma {
            mover: key.mover,
            passes: key.passes,
            root,
            had,
            absent,
            body,
        };
        self.lemmas.made.push(lemma)?;
        self.lemmas.listed = listed;
        let place = visit.number as usize;
        if place < self.lemmas.numbers.len() {
            self.lemmas.numbers[place] = self.lemmas.made.len() as u32;
        }
        Ok(())
    }
}

/// The lemmas of the proofs.
fn lemmas_of(
    alloc: Global,
    problem: &Problem,
    shared: &Shared,
    choice: Choice,
    left: &mut u64,
) -> Result<Lemmas, Refusal> {
    let root = shared.root;
    let chosen = LemmaChoice::new(alloc, &shared.proofs, choice)?;
    take_nodes(chosen.nodes_of_claim(root), left)?;
    let mut walk = Walk::new(alloc, problem, &shared.proofs, chosen)?;
    let mut bodies = Writer::of_main(alloc, Play::of(alloc, problem)?, shared.winner);
    walk.make_lemmas(alloc, &mut bodies, &shared.proofs, root)?;
    Ok(walk.into_lemmas())
}

/// The claim of the proof, in which those that are chosen are lemmas. The others are written in line wherever they are used. A lemma
/// needs the same colourings to have occurred as its proof. `left` falls by the nodes that the claim is counted to have. Refused if
/// fewer are left, or if it would pass the limits of claims.
pub fn claim_with_lemmas(
    alloc: Global,
    problem: &Problem,
    shared: &Shared,
    choice: Choice,
    left: &mut u64,
) -> Result<Certificate, Refusal> {
    let lemmas = lemmas_of(alloc, problem, shared, choice, left)?;
    claim(alloc, problem, shared, lemmas)
}

/// The claim of the proof without lemmas, with `left` as in `claim_with_lemmas`.
pub fn claim_without_lemmas(
    alloc: Global,
    problem: &Problem,
    shared: &Shared,
    left: &mut u64,
) -> Result<Certificate, Refusal> {
    take_nodes(shared.proofs.turns_below(Below::Proof(shared.root)), left)?;
    let lemmas = Lemmas {
        made: Vec::new(alloc),
        version: Version::One,
        numbers: Vec::new(alloc),
        listed: 0,
    };
    claim(alloc, problem, shared, lemmas)
}

/// The claim with these lemmas.
fn claim(
    alloc: Global,
    problem: &Problem,
    shared: &Shared,
    lemmas: Lemmas,
) -> Result<Certificate, Refusal> {
    let play = Play::of(alloc, problem)?;
    let mut writer = Writer::of_main(alloc, play, shared.winner);
    let main = writer.write(alloc, &shared.proofs, &lemmas, shared.root)?;
    Ok(Certificate {
        version: lemmas.version,
        size: problem.size(),
        winner: shared.winner,
        lemmas: lemmas.made,
        main,
    })
}
