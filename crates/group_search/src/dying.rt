//! Chains that are taken, outright or as long as named stones have liberties elsewhere.

use crate::claim::AreaText;
use crate::death::{Taken, Target, take};
use crate::finding::{Answer, Finding, Kind};
use crate::group_search::GroupSearch;
use crate::limits::SIZES;
use crate::pass_alive::{PassAlive, pass_alive};
use crate::proofs::Proof;
use crate::regions::{chains_beside, region_of_both, set_of_first, strong_chains};
use go_points::Colour;
use safety_search::NumberSet;
use std::alloc::AllocError;

/// The killer's chains that stand by themselves while it answers in a region.
#[derive(Clone, Copy)]
struct Standing {
    /// Those that live by their shape without the region and those that others use, with their areas.
    shape: PassAlive,
    /// With these all that stand.
    chains: NumberSet,
}

/// What is asked of a chain.
#[derive(Clone, Copy)]
pub(crate) struct Wanted {
    /// The killer.
    pub(crate) colour: Colour,
    pub(crate) chain: usize,
    /// Whether strong stones beside the region are supposed to stand.
    pub(crate) is_supposed: bool,
    /// Whether the killer moves first.
    pub(crate) is_own: bool,
}

impl GroupSearch {
    /// Asks whether the killer of this colour takes the chain.
    pub(crate) fn try_death(
        &mut self,
        colour: Colour,
        is_supposed: bool,
        chain: usize,
    ) -> Result<(), AllocError> {
        let is_target = match self.board.chain(chain) {
            Some(found) => found.colour != colour && !self.proofs.is_known(chain),
            None => false,
        };
        if is_target {
            let wanted = Wanted {
                colour,
                chain,
                is_supposed,
                is_own: false,
            };
            let _found = self.try_regions(&wanted)?;
        }
        Ok(())
    }

    /// Asks for regions of each size in turn.
    pub(crate) fn try_regions(&mut self, wanted: &Wanted) -> Result<bool, AllocError> {
        let liberties = match self.board.chain(wanted.chain) {
            Some(chain) => chain.liberties.len(),
            None => return Ok(false),
        };
        let none = NumberSet::empty();
        let points = self.nearest_to_chain(wanted.chain, &none, self.limits.points)?;
        let mut last = NumberSet::empty();
        for size in SIZES {
            if size < liberties || size > self.limits.points || self.is_spent() {
                continue;
            }
            let region = region_of_both(&self.board, &set_of_first(points.as_slice(), size));
            if region != last && self.try_region(wanted, &region)? {
                return Ok(true);
            }
            last = region;
        }
        Ok(false)
    }

    fn try_region(&mut self, wanted: &Wanted, region: &NumberSet) -> Result<bool, AllocError> {
        let standing = self.standing_without(wanted.colour, region)?;
        let mut chains = standing.chains;
        if wanted.is_supposed {
            let beside = chains_beside(&self.board, wanted.colour, region);
            chains = chains.or(&strong_chains(&self.board, &beside, region));
        }
        let target = Target {
            colour: wanted.colour,
            region: *region,
            chain: wanted.chain,
            standing: chains,
            is_own: wanted.is_own,
            moves_first: wanted.is_own || self.mover == Some(wanted.colour),
        };
        let limit = self.allowed(self.limits.steps);
        let found = take(
            self.alloc,
            &self.board,
            &target,
            &self.past,
            limit,
            &mut self.spent,
        )?;
        match found {
            Some(taken) => {
                self.add_taken(&target, &taken, &standing)?;
                Ok(true)
            }
            None => Ok(false),
        }
    }

    /// The killer's chains that stand while it answers in the region.
    fn standing_without(&self, colour: Colour, region: &NumberSet) -> Result<Standing, AllocError> {
        let without = region.or(&self.proofs.answered_regions(colour));
        let shape = pass_alive(self.alloc, &self.board, colour, &without)?;
        let all = self.board.chains_at(&self.board.stones(colour));
        Ok(Standing {
            shape,
            chains: shape.chains.or(&self.proofs.standing(&all, region)),
        })
    }

    /// Adds the proof and the finding.
    fn add_taken(
        &mut self,
        target: &Target,
        taken: &Taken,
        standing: &Standing,
    ) -> Result<(), AllocError> {
        let friends = taken.question.friends.and(&standing.chains);
        let supposed = taken.question.friends.minus(&standing.chains);
        let claim = self.death_claim(target, taken, standing, &friends)?;
        let kind = if supposed.is_empty() {
            Kind::Dead
        } else {
            Kind::DeadWhile
        };
        let chains = NumberSet::of(target.chain);
        let decided = self.proofs.add(Proof {
            kind,
            colour: target.colour,
            chains,
            region: taken.question.region,
            support: taken.question.region,
            friends,
            is_together: false,
            text: AreaText::none(self.alloc),
        })?;
        let owner = target.colour.opponent();
        let answers = self.killers_answers(target, taken)?;
        let finding = Finding {
            kind,
            colour: owner,
            stones: self.points_of_chains(&decided),
            mover: Some(if target.moves_first {
                target.colour
            } else {
                owner
            }),
            first: if target.is_own {
                self.point(taken.first_point())
            } else {
                None
            },
            is_together: false,
            kept: self.points_of_chains(&taken.question.kept),
            region: self.points(&taken.question.region),
            friends: self.points_of_chains(&friends),
            supposed: self.points_of_chains(&supposed),
            answers,
            steps: taken.steps,
            claim,
        };
        self.found.push(finding)?;
        Ok(())
    }

    /// The text of the claim: the areas of the friends, and then what the killer does.
    fn death_claim(
        &self,
        target: &Target,
        taken: &Taken,
        standing: &Standing,
        friends: &NumberSet,
    ) -> Result<Vec<u8>, AllocError> {
        let by_answers = friends.minus(&standing.shape.chains);
        let needed = self.proofs.find_needed(self.alloc, &by_answers)?;
        let has_shape = !friends.is_empty() && !standing.shape.chains.is_empty();
        let mut shape = AreaText::none(self.alloc);
        if has_shape {
            shape.add_shape(&self.board, &standing.shape.chains, &standing.shape.region)?;
        }
        let mut claim = Vec::new(self.alloc);
        self.push_title(&mut claim, "tsudeath", target.colour)?;
        claim.extend_from_slice(shape.head.as_slice())?;
        self.proofs
            .push_parts(&mut claim, needed.as_slice(), true, false)?;
        claim.extend_from_slice(shape.body.as_slice())?;
        self.proofs
            .push_parts(&mut claim, needed.as_slice(), false, false)?;
        taken.push_to(&mut claim, &self.board, target.moves_first)?;
        Ok(claim)
    }

    /// The killer's answers to the owner's first moves.
    fn killers_answers(&self, target: &Target, taken: &Taken) -> Result<Vec<Answer>, AllocError> {
        let mut answers = Vec::new(self.alloc);
        let (first, end) = taken.first_replies(target.is_own);
        for at in first..end {
            if let Some((turn, answer)) = taken.reply_points(at) {
                if let Some(point) = self.point(turn) {
                    answers.push(Answer {
                        point,
                        answer: self.point(answer),
                    })?;
                }
            }
        }
        Ok(answers)
    }
}
