//! Rounds over the chains of a side: regions of each size in turn, then regions that grow, then two regions; and from the beginning
//! again as long as something is found.

use crate::group_search::{Asked, GroupSearch};
use crate::keeping::{Kept, Said};
use crate::limits::SIZES;
use crate::regions::{choices, region_of, set_of};
use go_points::Colour;
use safety_search::{NumberSet, Question};
use std::alloc::AllocError;

/// What a round does.
#[derive(Clone, Copy, Debug, PartialEq, Eq)]
pub(crate) enum Round {
    /// Regions of the size at this place.
    Size(usize),
    Grow,
    Pair,
}

/// The rounds of one side.
#[derive(Clone, Copy)]
pub(crate) struct Rounds {
    pub(crate) colour: Colour,
    /// Whether the regions meet no other ones that are in use; and these.
    pub(crate) is_together: bool,
    pub(crate) used: NumberSet,
    /// The chain that alone is asked about, if there is one.
    pub(crate) only: Option<usize>,
    round: Round,
    /// The chains for which a region was too much.
    hard: NumberSet,
}

impl Rounds {
    pub(crate) fn of(colour: Colour, used: NumberSet, only: Option<usize>) -> Rounds {
        Rounds {
            colour,
            is_together: true,
            used,
            only,
            round: Round::Size(0),
            hard: NumberSet::empty(),
        }
    }

    /// The same for each chain by itself.
    pub(crate) fn single(self) -> Rounds {
        Rounds {
            is_together: false,
            used: NumberSet::empty(),
            ..self
        }
    }

    /// The rounds after one, in which something was found or not. `None` at their end.
    fn after(self, has_found: bool) -> Option<Rounds> {
        if has_found {
            return Some(Rounds {
                round: Round::Size(0),
                hard: NumberSet::empty(),
                ..self
            });
        }
        let round = match self.round {
            Round::Size(at) if at.saturating_add(1) < SIZES.len() => {
                Round::Size(at.saturating_add(1))
            }
            Round::Size(_) => Round::Grow,
            Round::Grow => Round::Pair,
            Round::Pair => return None,
        };
        Some(Rounds { round, ..self })
    }
}

impl GroupSearch {
    /// One round over all chains. Returns what comes next.
    pub(crate) fn run_round(&mut self, rounds: Rounds) -> Result<Option<Rounds>, AllocError> {
        if self.is_spent() {
            return Ok(None);
        }
        let mut now = rounds;
        let mut has_found = false;
        let chains = self.open_chains(&rounds)?;
        for (_, chain) in chains.iter() {
            if self.try_chain(&mut now, *chain, has_found)? {
                has_found = true;
            }
        }
        Ok(now.after(has_found))
    }

    /// Does the round for one chain, if nothing is known of it.
    fn try_chain(
        &mut self,
        rounds: &mut Rounds,
        chain: usize,
        has_found: bool,
    ) -> Result<bool, AllocError> {
        if self.proofs.is_known(chain) {
            return Ok(false);
        }
        match rounds.round {
            Round::Size(at) => self.try_size(rounds, chain, at),
            Round::Grow => self.try_growing(rounds, chain),
            // Two regions are dear: what has been found may make smaller ones do.
            Round::Pair if has_found => Ok(false),
            Round::Pair => self.try_pair(rounds, chain),
        }
    }

    /// The chains of which nothing is known, each after a number that is less for more stones: the largest first.
    fn open_chains(&self, rounds: &Rounds) -> Result<Vec<(usize, usize)>, AllocError> {
        let mut chains = Vec::new(self.alloc);
        let unknown = self.proofs.unknown(&self.board, rounds.colour);
        for chain in unknown.iter() {
            if rounds.only.is_none() || rounds.only == Some(chain) {
                chains.push((self.fewer_stones(chain), chain))?;
            }
        }
        chains.sort()?;
        Ok(chains)
    }

    /// A number that is less for a chain with more stones.
    fn fewer_stones(&self, chain: usize) -> usize {
        let stones = match self.board.chain(chain) {
            Some(chain) => chain.stones.len(),
            None => 0,
        };
        usize::MAX - stones
    }

    /// Asks for a region of this size for the chain.
    fn try_size(
        &mut self,
        rounds: &mut Rounds,
        chain: usize,
        at: usize,
    ) -> Result<bool, AllocError> {
        let size = size_at(at);
        if size > self.limits.points || rounds.hard.has(chain) {
            return Ok(false);
        }
        let mut points = self.nearest_to_chain(chain, &rounds.used, size)?;
        let is_as_before = at > 0 && points.len() <= size_at(at.saturating_sub(1));
        if points.len() < size && is_as_before {
            return Ok(false);
        }
        let region = region_of(&self.board, rounds.colour, &set_of(points.as_slice()));
        match self.try_choices(rounds, chain, &region)? {
            Some(kept) => self.keep_found(rounds, kept, &mut points),
            None => Ok(false),
        }
    }

    /// Asks for each choice of the chains that are kept.
    fn try_choices(
        &mut self,
        rounds: &mut Rounds,
        chain: usize,
        region: &NumberSet,
    ) -> Result<Option<Kept>, AllocError> {
        let (friends, others) = self.sides_of(rounds.colour, region);
        if !others.has(chain) {
            return Ok(None);
        }
        for kept in choices(&self.board, &others, region, chain) {
            let asked = Asked {
                region: *region,
                kept,
                friends,
                giving: NumberSet::empty(),
            };
            match self.ask_once(rounds.colour, asked, false)? {
                Some(Said::Yes(found)) => return Ok(Some(found)),
                Some(Said::No(Some(_))) | None => {}
                // Larger regions are not decided either, mostly.
                Some(Said::No(None)) | Some(Said::Open) => rounds.hard.insert(chain),
            }
        }
        Ok(None)
    }

    /// Makes the region of a proof smaller, and adds the proof, unless the past bars it.
    pub(crate) fn keep_found(
        &mut self,
        rounds: &mut Rounds,
        kept: Kept,
        points: &mut Vec<usize>,
    ) -> Result<bool, AllocError> {
        let kept = self.shrink(kept, points)?;
        self.keep_unless_barred(rounds, &kept)
    }

    fn keep_unless_barred(&mut self, rounds: &mut Rounds, kept: &Kept) -> Result<bool, AllocError> {
        if kept.is_barred(&self.board, &self.past) {
            return Ok(false);
        }
        if rounds.is_together {
            rounds.used = rounds.used.or(&kept.question.region);
        }
        self.add_kept(kept, rounds.is_together)?;
        Ok(true)
    }
}

impl Asked {
    /// The question of this side.
    pub(crate) fn question(&self, colour: Colour) -> Question {
        Question {
            colour,
            region: self.region,
            kept: self.kept,
            friends: self.friends,
            giving: self.giving,
            targets: NumberSet::empty(),
        }
    }
}

fn size_at(at: usize) -> usize {
    SIZES.get(at).copied().unwrap_or(0)
}
