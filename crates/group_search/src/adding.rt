//! Findings that chains live, with their claims.

use crate::claim::AreaText;
use crate::finding::{Answer, Finding, Kind};
use crate::group_search::GroupSearch;
use crate::keeping::Kept;
use crate::pass_alive::{PassAlive, part_with, pass_alive};
use crate::proofs::Proof;
use crate::text::{push_line_end, push_number, push_text, push_vertex};
use go_points::{Colour, Point, PointSet};
use safety_search::NumberSet;
use std::alloc::AllocError;

impl GroupSearch {
    /// Finds the chains of this side that live by their shape.
    pub(crate) fn find_shapes(&mut self, colour: Colour) -> Result<(), AllocError> {
        let none = NumberSet::empty();
        let whole = pass_alive(self.alloc, &self.board, colour, &none)?;
        let mut rest = whole.chains;
        for _ in 0..u64::MAX {
            let Some(chain) = rest.first() else {
                break;
            };
            let part = part_with(&self.board, &whole, chain);
            rest = rest.minus(&part.chains);
            rest.remove(chain);
            self.add_shape(colour, &part)?;
        }
        Ok(())
    }

    fn add_shape(&mut self, colour: Colour, part: &PassAlive) -> Result<(), AllocError> {
        let mut text = AreaText::none(self.alloc);
        text.add_shape(&self.board, &part.chains, &part.region)?;
        let proof = Proof {
            kind: Kind::PassAlive,
            colour,
            chains: part.chains,
            region: part.region,
            support: part.region,
            friends: NumberSet::empty(),
            is_together: true,
            text,
        };
        self.add_life(proof, None, Vec::new(self.alloc), 0)
    }

    /// Adds the proof of a question of life.
    pub(crate) fn add_kept(&mut self, kept: &Kept, is_together: bool) -> Result<(), AllocError> {
        let friends = kept.friends(&self.board);
        let mut text = AreaText::none(self.alloc);
        text.add_kept(&self.board, kept)?;
        let region = kept.question.region;
        let proof = Proof {
            kind: if friends.is_empty() {
                Kind::OneRegion
            } else {
                Kind::WithFriends
            },
            colour: kept.question.colour,
            chains: kept.question.kept,
            region,
            support: region.or(&self.proofs.support_of(&friends)),
            friends,
            is_together,
            text,
        };
        let answers = self.answers_of(kept)?;
        self.add_life(proof, kept.first, answers, kept.steps)
    }

    /// Adds a proof that chains live, and the finding.
    pub(crate) fn add_life(
        &mut self,
        proof: Proof,
        first: Option<usize>,
        answers: Vec<Answer>,
        steps: u64,
    ) -> Result<(), AllocError> {
        let claim = self.life_claim(&proof, first)?;
        let kind = proof.kind;
        let colour = proof.colour;
        let is_together = proof.is_together;
        let kept = self.points_of_chains(&proof.chains);
        let region = self.points(&proof.region);
        let friends = self.points_of_chains(&proof.friends);
        let decided = self.proofs.add(proof)?;
        let finding = Finding {
            kind,
            colour,
            stones: self.points_of_chains(&decided),
            mover: match first {
                Some(_) => Some(colour),
                None => None,
            },
            first: self.point(first),
            is_together,
            kept,
            region,
            friends,
            supposed: PointSet::new(),
            answers,
            steps,
            claim,
        };
        self.found.push(finding)?;
        Ok(())
    }

    /// The text of the claim: the areas of the friends before its own.
    fn life_claim(&self, proof: &Proof, first: Option<usize>) -> Result<Vec<u8>, AllocError> {
        let needed = self.proofs.find_needed(self.alloc, &proof.friends)?;
        let mut claim = Vec::new(self.alloc);
        self.push_title(&mut claim, "tsureply", proof.colour)?;
        self.proofs
            .push_parts(&mut claim, needed.as_slice(), true, true)?;
        claim.extend_from_slice(proof.text.head.as_slice())?;
        if let Some(point) = first {
            push_text(&mut claim, "first ")?;
            push_vertex(&mut claim, &self.board, point)?;
            push_line_end(&mut claim)?;
        }
        self.proofs
            .push_parts(&mut claim, needed.as_slice(), false, true)?;
        claim.extend_from_slice(proof.text.body.as_slice())?;
        Ok(claim)
    }

    /// The first line of a claim.
    pub(crate) fn push_title(
        &self,
        text: &mut Vec<u8>,
        word: &str,
        colour: Colour,
    ) -> Result<(), AllocError> {
        push_text(text, word)?;
        push_text(text, " 1 ")?;
        push_number(text, self.board.size().rows() as usize)?;
        push_text(
            text,
            match colour {
                Colour::Black => " B\n",
                Colour::White => " W\n",
            },
        )
    }

    /// The answers to the other side's first moves.
    pub(crate) fn answers_of(&self, kept: &Kept) -> Result<Vec<Answer>, AllocError> {
        let mut answers = Vec::new(self.alloc);
        let Some(root) = kept.proof.states().first() else {
            return Ok(answers);
        };
        let game = kept.search.game();
        for at in root.first..root.end {
            if let Some(line) = kept.proof.line(at) {
                let answer = match line.answer {
                    Some(place) => self.point(game.point(place)),
                    None => None,
                };
                if let Some(point) = self.point(game.point(line.place)) {
                    answers.push(Answer { point, answer })?;
                }
            }
        }
        Ok(answers)
    }

    /// The point of this number.
    pub(crate) fn point(&self, number: Option<usize>) -> Option<Point> {
        let size = self.board.size();
        match number {
            Some(number) if number < size.area() => Some(size.point_at(number)),
            _ => None,
        }
    }

    pub(crate) fn points(&self, numbers: &NumberSet) -> PointSet {
        let mut points = PointSet::new();
        for number in numbers.iter() {
            if let Some(point) = self.point(Some(number)) {
                points.insert(point);
            }
        }
        points
    }

    pub(crate) fn points_of_chains(&self, chains: &NumberSet) -> PointSet {
        self.points(&self.board.stones_of_chains(chains))
    }
}
