//! Regions that grow where they are weak: the chain that can be taken most often gets points of its own order, or, if that did not
//! help twice, is left outside. They begin with a few points, or with a whole area of the side.

use crate::group_search::{Asked, GroupSearch};
use crate::keeping::{Kept, Said};
use crate::pass_alive::areas_of;
use crate::regions::{region_of, set_of, set_of_first};
use crate::rounds::Rounds;
use go_points::Colour;
use safety_search::NumberSet;
use std::alloc::AllocError;

/// How often a region may grow.
const MOST_ROUNDS: usize = 20;

/// How many points it grows by.
const MORE_POINTS: usize = 2;

/// A region that grows.
#[derive(Drop)]
struct Growth {
    points: Vec<usize>,
    /// The chains that were left outside, those that got points, and those that got points twice.
    dropped: NumberSet,
    fed: NumberSet,
    fed_twice: NumberSet,
}

/// What comes of a round.
#[derive(Drop)]
enum Grown {
    Found(Kept),
    Again,
    Over,
}

impl GroupSearch {
    /// Asks for a region that grows for the chain.
    pub(crate) fn try_growing(
        &mut self,
        rounds: &mut Rounds,
        chain: usize,
    ) -> Result<bool, AllocError> {
        let most = self.limits.grown_points;
        if most == 0 {
            return Ok(false);
        }
        let starts = self.starts(rounds, chain, most)?;
        for start in starts.iter() {
            let mut growth = Growth {
                points: self.points_of(start)?,
                dropped: NumberSet::empty(),
                fed: NumberSet::empty(),
                fed_twice: NumberSet::empty(),
            };
            if let Some(kept) = self.grow(rounds, chain, &mut growth, most)? {
                return self.keep_found(rounds, kept, &mut growth.points);
            }
        }
        Ok(false)
    }

    fn points_of(&self, set: &NumberSet) -> Result<Vec<usize>, AllocError> {
        let mut points = Vec::new(self.alloc);
        for point in set.iter() {
            points.push(point)?;
        }
        Ok(points)
    }

    /// The sets of points to begin with: the first three, the first seven, and the areas of the side where the chain has liberties.
    fn starts(
        &self,
        rounds: &Rounds,
        chain: usize,
        most: usize,
    ) -> Result<Vec<NumberSet>, AllocError> {
        let mut starts = Vec::new(self.alloc);
        let near = self.nearest_to_chain(chain, &rounds.used, 7)?;
        starts.push(set_of_first(near.as_slice(), 3))?;
        starts.push(set_of(near.as_slice()))?;
        let areas = areas_of(self.alloc, &self.board, rounds.colour)?;
        for area in areas.iter() {
            let points = area.points.and(&self.board.empty()).minus(&rounds.used);
            let count = points.len();
            if count >= 4 && count <= most && self.has_liberty_in(chain, &points) {
                starts.push(points)?;
            }
        }
        Ok(starts)
    }

    fn has_liberty_in(&self, chain: usize, points: &NumberSet) -> bool {
        match self.board.chain(chain) {
            Some(chain) => chain.liberties.meets(points),
            None => false,
        }
    }

    fn grow(
        &mut self,
        rounds: &Rounds,
        chain: usize,
        growth: &mut Growth,
        most: usize,
    ) -> Result<Option<Kept>, AllocError> {
        for _ in 0..MOST_ROUNDS {
            if growth.points.len() > most || self.is_spent() {
                break;
            }
            match self.grow_once(rounds, chain, growth)? {
                Grown::Found(kept) => return Ok(Some(kept)),
                Grown::Again => {}
                Grown::Over => break,
            }
        }
        Ok(None)
    }

    /// Asks for the region as it is, and lets it grow.
    fn grow_once(
        &mut self,
        rounds: &Rounds,
        chain: usize,
        growth: &mut Growth,
    ) -> Result<Grown, AllocError> {
        let region = region_of(
            &self.board,
            rounds.colour,
            &set_of(growth.points.as_slice()),
        );
        let (friends, others) = self.sides_of(rounds.colour, &region);
        let kept = others.minus(&growth.dropped);
        if !kept.has(chain) {
            return Ok(Grown::Over);
        }
        let asked = Asked {
            region,
            kept,
            friends,
            giving: NumberSet::empty(),
        };
        let is_closed = growth.dropped.is_empty() && self.is_closed(rounds.colour, &region);
        match self.ask_once(rounds.colour, asked, is_closed)? {
            Some(Said::Yes(found)) => Ok(Grown::Found(found)),
            Some(Said::No(Some(weak))) => self.feed(rounds, chain, growth, weak),
            Some(Said::No(None)) | Some(Said::Open) | None => Ok(Grown::Over),
        }
    }

    /// Whether the region is a whole area of the side: beside it are only stones of that.
    fn is_closed(&self, colour: Colour, region: &NumberSet) -> bool {
        let beside = self.board.beside(region).minus(region);
        beside.is_within(&self.board.stones(colour))
    }

    /// Gives the weak chain more points, or leaves it outside.
    fn feed(
        &self,
        rounds: &Rounds,
        chain: usize,
        growth: &mut Growth,
        weak: usize,
    ) -> Result<Grown, AllocError> {
        let have = growth.points.len();
        let near = self.nearest_to_chain(weak, &rounds.used, have.saturating_add(MORE_POINTS))?;
        let known = set_of(growth.points.as_slice());
        let mut count: usize = 0;
        for point in near.iter() {
            if !known.has(*point) && count < MORE_POINTS {
                growth.points.push(*point)?;
                count = count.saturating_add(1);
            }
        }
        if weak != chain && (count == 0 || growth.fed_twice.has(weak)) {
            growth.points.truncate(have);
            growth.dropped.insert(weak);
            return Ok(Grown::Again);
        }
        if count == 0 {
            return Ok(Grown::Over);
        }
        if growth.fed.has(weak) {
            growth.fed_twice.insert(weak);
        }
        growth.fed.insert(weak);
        Ok(Grown::Again)
    }
}
