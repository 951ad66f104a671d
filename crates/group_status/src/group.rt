//! The group that is asked about.

ghost use Rattle.std.specs.Prelude.{IfOk, IfSome};
ghost use Rattle.proved_groups.specs.Proven.{IsOfStoneByMove};

use go_points::{Colour, Point, PointSet, Size};
use group_words::Side;
use proved_groups::FirstMoves;
use regions::{Order, Position, Supposed};
use std::alloc::{AllocError, Global};
use target_game::Problem;

/// A stone of a position, with the order in which points come into its region.
#[derive(Drop)]
pub(crate) struct Group {
    /// The position with its past.
    pub(crate) problem: Problem,
    pub(crate) position: Position,
    pub(crate) order: Order,
    pub(crate) target: Point,
    pub(crate) defender: Colour,
    /// Stones of the board that are proved to be taken, perhaps as long as others stand: as far as that was asked before.
    pub(crate) lost: PointSet,
}

impl Group {
    /// The group of the first target of the problem.
    pub(crate) fn new(alloc: Global, problem: Problem) -> Result<Option<Group>, AllocError> {
        let Some(target) = problem.targets().first() else {
            return Ok(None);
        };
        let defender = problem.defender();
        let position = Position::new(alloc, problem.colouring())?;
        let order = Order::new(alloc, &position, target, &PointSet::new())?;
        Ok(Some(Group {
            problem,
            position,
            order,
            target,
            defender,
            lost: PointSet::new(),
        }))
    }

    /// The attacker's stones.
    pub(crate) fn attackers(&self) -> PointSet {
        let attacker = self.defender.opponent();
        let colouring = self.problem.colouring();
        let size = colouring.size();
        let mut stones = PointSet::new();
        for number in 0..size.area() {
            if colouring.cell(number).is_stone_of(attacker) {
                stones.insert(size.point_at(number));
            }
        }
        stones
    }

    /// Those of these stones, of the attacker's, that are beside the target's chain.
    pub(crate) fn beside(&self, stones: &PointSet) -> PointSet {
        let own = self.position.stones(self.target);
        let mut beside = PointSet::new();
        for stone in stones.iter() {
            if !own.has(stone) && touches(self.problem.size(), stone, &own) {
                beside.insert(stone);
            }
        }
        beside
    }

    /// What is proved of it by the first move of either side, or of this one alone.
    pub(crate) fn first_moves(
        &self,
        alloc: Global,
        first: Option<Side>,
        steps: u64,
    ) -> Result<FirstMoves, AllocError>
        ensures attack { IfOk result (λ m. IfSome m.attack
            (IsOfStoneByMove self.now.problem self.now.target)) }
        ensures defence { IfOk result (λ m. IfSome m.defence
            (IsOfStoneByMove self.now.problem self.now.target)) }
    {
        let mover = match first {
            Some(side) => Some(side.colour(self.defender)),
            None => None,
        };
        FirstMoves::of(
            alloc,
            &self.problem,
            self.target,
            self.defender,
            mover,
            steps,
        )
    }

    /// The problem of a position in which something is supposed about the outside, with this side to move first. If no stone was
    /// placed, the past counts; otherwise there is no past, since the position never occurred.
    pub(crate) fn problem_of(
        &self,
        alloc: Global,
        supposed: &Supposed,
        target: Point,
        first: Side,
    ) -> Result<Option<Problem>, AllocError> {
        let after = Position::new(alloc, &supposed.colouring)?;
        let targets = after.stones(target);
        let mover = first.colour(self.defender);
        let mut history = Vec::new(alloc);
        let mut place: usize = 0;
        if *self.problem.colouring() == supposed.colouring {
            history = self.problem.history().to_vec(alloc)?;
            place = self.problem.place();
        } else {
            history.push(supposed.colouring)?;
        }
        match Problem::new(history, place, mover, 0, targets, supposed.region) {
            Ok(problem) => Ok(Some(problem)),
            Err(_) => Ok(None),
        }
    }
}

/// Whether one of these stones is beside the point.
fn touches(size: Size, point: Point, stones: &PointSet) -> bool {
    size.holds(point) && point.neighbours(size).iter().any(|it| stones.has(*it))
}
