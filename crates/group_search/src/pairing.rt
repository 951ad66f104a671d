//! Two regions that do not meet, in each of which a chain keeps a liberty: together they keep it.

use crate::claim::AreaText;
use crate::finding::{Answer, Kind};
use crate::group_search::{Asked, GroupSearch};
use crate::keeping::{Kept, Said};
use crate::proofs::Proof;
use crate::regions::{choices, region_of, set_of};
use crate::rounds::Rounds;
use safety_search::NumberSet;
use std::alloc::AllocError;

/// The numbers of empty points of the regions that are asked, smallest first.
const PAIR_SIZES: [usize; 10] = [1, 2, 3, 4, 5, 6, 7, 8, 10, 12];

/// The regions that were found.
#[derive(Drop)]
struct Pair {
    /// The points that the next region may not have.
    barred: NumberSet,
    first: Option<Kept>,
    second: Option<Kept>,
}

impl GroupSearch {
    /// Asks for two regions for the chain.
    pub(crate) fn try_pair(
        &mut self,
        rounds: &mut Rounds,
        chain: usize,
    ) -> Result<bool, AllocError> {
        if !self.limits.has_pairs {
            return Ok(false);
        }
        let mut pair = Pair {
            barred: rounds.used,
            first: None,
            second: None,
        };
        for size in PAIR_SIZES {
            self.try_pair_size(rounds, chain, size, &mut pair)?;
            if pair.second.is_some() || self.is_spent() {
                break;
            }
        }
        self.keep_pair(rounds, &pair)
    }

    /// Asks for regions of this size from each liberty of the chain.
    fn try_pair_size(
        &mut self,
        rounds: &Rounds,
        chain: usize,
        size: usize,
        pair: &mut Pair,
    ) -> Result<(), AllocError> {
        let liberties = match self.board.chain(chain) {
            Some(found) => found.liberties,
            None => NumberSet::empty(),
        };
        for liberty in liberties.iter() {
            if pair.second.is_none() && !pair.barred.has(liberty) {
                self.try_liberty(rounds, chain, liberty, size, pair)?;
            }
        }
        Ok(())
    }

    fn try_liberty(
        &mut self,
        rounds: &Rounds,
        chain: usize,
        liberty: usize,
        size: usize,
        pair: &mut Pair,
    ) -> Result<(), AllocError> {
        let empty = self.board.empty();
        // The walk does not go by way of the chain itself.
        let own = self.board.stones_of_chains(&NumberSet::of(chain));
        let barred = pair.barred.and(&empty).or(&own);
        let from = NumberSet::of(liberty);
        let mut points = self.nearest(rounds.colour, &from, &barred, size)?;
        let region = region_of(&self.board, rounds.colour, &set_of(points.as_slice()));
        let Some(kept) = self.try_half(rounds, chain, &region)? else {
            return Ok(());
        };
        let kept = self.shrink(kept, &mut points)?;
        pair.barred = pair.barred.or(&kept.question.region);
        if pair.first.is_none() {
            pair.first = Some(kept);
        } else {
            pair.second = Some(kept);
        }
        Ok(())
    }

    /// Asks whether the chain keeps a liberty in the region, for each choice of the chains that are kept with it.
    fn try_half(
        &mut self,
        rounds: &Rounds,
        chain: usize,
        region: &NumberSet,
    ) -> Result<Option<Kept>, AllocError> {
        let (friends, others) = self.sides_of(rounds.colour, region);
        if !others.has(chain) {
            return Ok(None);
        }
        for kept in choices(&self.board, &others, region, chain) {
            let asked = Asked {
                region: *region,
                kept,
                friends,
                giving: NumberSet::of(chain),
            };
            if let Some(Said::Yes(found)) = self.ask_once(rounds.colour, asked, false)? {
                return Ok(Some(found));
            }
        }
        Ok(None)
    }

    /// Adds the proof by both regions, if both were found and hold at the same time.
    fn keep_pair(&mut self, rounds: &mut Rounds, pair: &Pair) -> Result<bool, AllocError> {
        let (Some(first), Some(second)) = (&pair.first, &pair.second) else {
            return Ok(false);
        };
        let region = first.question.region.or(&second.question.region);
        let friends = first.friends(&self.board).or(&second.friends(&self.board));
        let standing = self.proofs.standing(&friends, &region);
        let is_barred = first.is_barred(&self.board, &self.past)
            || second.is_barred(&self.board, &self.past);
        if is_barred || standing != friends {
            return Ok(false);
        }
        if rounds.is_together {
            rounds.used = rounds.used.or(&region);
        }
        let text = self.text_of_both(first, second)?;
        let answers = self.answers_of_both(first, second)?;
        let proof = Proof {
            kind: Kind::TwoRegions,
            colour: rounds.colour,
            chains: first.question.kept.or(&second.question.kept),
            region,
            support: region.or(&self.proofs.support_of(&friends)),
            friends,
            is_together: rounds.is_together,
            text,
        };
        let steps = first.steps.saturating_add(second.steps);
        self.add_life(proof, None, answers, steps)?;
        Ok(true)
    }

    fn text_of_both(&self, first: &Kept, second: &Kept) -> Result<AreaText, AllocError> {
        let mut text = AreaText::none(self.alloc);
        text.add_kept(&self.board, first)?;
        text.add_kept(&self.board, second)?;
        Ok(text)
    }

    fn answers_of_both(&self, first: &Kept, second: &Kept) -> Result<Vec<Answer>, AllocError> {
        let mut answers = self.answers_of(first)?;
        let more = self.answers_of(second)?;
        answers.extend_from_slice(more.as_slice())?;
        Ok(answers)
    }
}
