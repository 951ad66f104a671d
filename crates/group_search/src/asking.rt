//! What is found of one stone, in less time than of the whole board.

use crate::dying::Wanted;
use crate::finding::Finding;
use crate::group_search::GroupSearch;
use crate::keeping::{Kept, Said, keep};
use crate::limits::{Limits, SIZES};
use crate::regions::{choices, region_of, set_of_first};
use crate::rounds::Rounds;
use go_points::{Colour, Colouring, Point, PointSet};
use safety_search::{NumberSet, Question};
use std::alloc::{AllocError, Global};

/// What is found of the stone at the point: first that it lives, whoever moves first, then that it lives if its owner, who is to
/// move, does so first, and then that it is taken, by the killer's first move if that is to move. `None` if nothing is found.
pub fn find_for_stone(
    alloc: Global,
    board: &Colouring,
    past: &[Colouring],
    mover: Option<Colour>,
    limits: Limits,
    point: Point,
) -> Result<Option<Finding>, AllocError> {
    let mut search = GroupSearch::new(alloc, board, past, mover, limits)?;
    search.find_for(point)
}

/// What is found of the stone at the point where this side moves first: that it lives once its owner has moved, or that it is taken by
/// the other side's first move. That it lives or is taken anyway is not asked, and may be found. `None` if nothing is found.
pub fn find_by_first_move(
    alloc: Global,
    board: &Colouring,
    past: &[Colouring],
    mover: Colour,
    limits: Limits,
    point: Point,
) -> Result<Option<Finding>, AllocError> {
    let mut search = GroupSearch::new(alloc, board, past, Some(mover), limits)?;
    search.find_for_mover(mover, point)
}

/// What is found of the chains of these stones, each by itself: that this side takes them, perhaps as long as stones of its own stand.
/// Its own stones among them are passed over, and that others live is not asked.
pub fn find_taken(
    alloc: Global,
    board: &Colouring,
    past: &[Colouring],
    limits: Limits,
    taker: Colour,
    stones: &PointSet,
) -> Result<Vec<Finding>, AllocError> {
    let mut search = GroupSearch::new(alloc, board, past, None, limits)?;
    search.look_at_side(taker)?;
    let mut taken = Vec::new(alloc);
    for stone in stones.iter() {
        if let Some(finding) = search.find_taken_at(taker, stone)? {
            taken.push(finding)?;
        }
    }
    Ok(taken)
}

impl GroupSearch {
    /// What is found of the chain of the stone at the point, if it is not this side's: that this side takes it. `None` also where
    /// that was found before.
    fn find_taken_at(
        &mut self,
        taker: Colour,
        point: Point,
    ) -> Result<Option<Finding>, AllocError> {
        let Some((owner, chain)) = self.chain_of(point) else {
            return Ok(None);
        };
        if owner == taker || self.proofs.is_known(chain) {
            return Ok(None);
        }
        let _found = self.try_regions(&Wanted {
            colour: taker,
            chain,
            is_supposed: true,
            is_own: false,
        })?;
        Ok(self.finding_of(point))
    }

    /// What is found of the stone at the point.
    fn find_for(&mut self, point: Point) -> Result<Option<Finding>, AllocError> {
        let Some((owner, chain)) = self.chain_of(point) else {
            return Ok(None);
        };
        self.look_for_life(owner, chain)?;
        if !self.proofs.is_known(chain) {
            self.look_for_death(owner.opponent(), chain)?;
        }
        Ok(self.finding_of(point))
    }

    /// What is found of the stone at the point by this side's first move.
    fn find_for_mover(
        &mut self,
        mover: Colour,
        point: Point,
    ) -> Result<Option<Finding>, AllocError> {
        let Some((owner, chain)) = self.chain_of(point) else {
            return Ok(None);
        };
        if mover != owner {
            self.look_for_death(mover, chain)?;
            return Ok(self.finding_of(point));
        }
        self.look_at_side(owner)?;
        if !self.proofs.is_known(chain) {
            let _found = self.try_first_moves(owner, chain)?;
        }
        Ok(self.finding_of(point))
    }

    /// The colour and the chain of the stone at the point.
    fn chain_of(&self, point: Point) -> Option<(Colour, usize)> {
        let size = self.board.size();
        if !size.holds(point) {
            return None;
        }
        let number = point.number(size);
        let chain = self.board.chain_at(number)?;
        let owner = self.board.colour_at(number)?;
        Some((owner, chain))
    }

    /// Asks whether the chain lives: by a first look at its side, then by itself, then if its owner, who is to move, does so first.
    fn look_for_life(&mut self, owner: Colour, chain: usize) -> Result<(), AllocError> {
        self.look_at_side(owner)?;
        if self.proofs.is_known(chain) {
            return Ok(());
        }
        self.run_rounds(Rounds::of(owner, NumberSet::empty(), Some(chain)).single())?;
        if self.mover == Some(owner) && !self.proofs.is_known(chain) {
            let _found = self.try_first_moves(owner, chain)?;
        }
        Ok(())
    }

    /// Asks whether the killer of this colour takes the chain, by its first move if it is to move.
    fn look_for_death(&mut self, colour: Colour, chain: usize) -> Result<(), AllocError> {
        self.look_at_side(colour)?;
        let wanted = Wanted {
            colour,
            chain,
            is_supposed: true,
            is_own: self.mover == Some(colour),
        };
        let _found = self.try_regions(&wanted)?;
        Ok(())
    }

    /// A first look at all chains of a side.
    fn look_at_side(&mut self, colour: Colour) -> Result<(), AllocError> {
        let limits = self.limits;
        self.limits = limits.quick();
        self.find_shapes(colour)?;
        let all = self.board.chains_at(&self.board.stones(colour));
        let used = self.proofs.support_of(&all);
        self.run_rounds(Rounds::of(colour, used, None))?;
        self.limits = limits;
        Ok(())
    }

    /// Runs these rounds to their end.
    fn run_rounds(&mut self, first: Rounds) -> Result<(), AllocError> {
        self.forget_tried();
        let mut rounds = first;
        for _ in 0..u64::MAX {
            match self.run_round(rounds)? {
                Some(next) => rounds = next,
                None => break,
            }
        }
        Ok(())
    }

    /// The finding that decides the stone.
    fn finding_of(&mut self, point: Point) -> Option<Finding> {
        let count = self.found.len();
        for at in 0..count {
            let is_it = match self.found.get(at) {
                Some(finding) => finding.stones.has(point),
                None => false,
            };
            if is_it && at < self.found.len() {
                return Some(self.found.remove(at));
            }
        }
        None
    }

    /// Asks whether the chain lives if its owner moves first.
    fn try_first_moves(&mut self, colour: Colour, chain: usize) -> Result<bool, AllocError> {
        let none = NumberSet::empty();
        let points = self.nearest_to_chain(chain, &none, self.limits.points)?;
        for size in SIZES {
            if size > self.limits.points || self.is_spent() {
                break;
            }
            let region = region_of(&self.board, colour, &set_of_first(points.as_slice(), size));
            if let Some(kept) = self.first_move_in(colour, chain, &region)? {
                self.add_kept(&kept, false)?;
                return Ok(true);
            }
        }
        Ok(false)
    }

    /// Asks the same for one region.
    fn first_move_in(
        &mut self,
        colour: Colour,
        chain: usize,
        region: &NumberSet,
    ) -> Result<Option<Kept>, AllocError> {
        let (friends, others) = self.sides_of(colour, region);
        if !others.has(chain) {
            return Ok(None);
        }
        for kept in choices(&self.board, &others, region, chain) {
            let question = Question {
                colour,
                region: *region,
                kept,
                friends,
                giving: NumberSet::empty(),
                targets: NumberSet::empty(),
            };
            let limit = self.allowed(self.limits.steps);
            let spent = &mut self.spent;
            let said = keep(self.alloc, &self.board, &question, true, limit, spent)?;
            if let Said::Yes(found) = said {
                if found.first.is_some() && !found.is_barred(&self.board, &self.past) {
                    return Ok(Some(found));
                }
            }
        }
        Ok(None)
    }
}
