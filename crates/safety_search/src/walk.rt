//! The order in which empty points come into a region: one walk from a chain, or from a point, cheapest points first.
//!
//! Points inside the owner's own shape cost least, and those along a wall of the other side most. The walk goes through weak
//! chains, which the owner may take, and their liberties; strong chains of the other side end it (`docs/REGIONS.md`).

use crate::board::Board;
use crate::number_set::NumberSet;
use go_points::Colour;
use std::alloc::{AllocError, Global};

/// All costs are less than this, so this many sets, used in turn, hold everything that is due.
const BUCKETS: usize = 6;

/// No distance is greater: this is each point of the widest board at the greatest cost.
const FARTHEST: usize = 3_200;

/// What it costs the owner of a region to enter the points and chains of a board, and how much each point touches.
#[derive(Clone, Copy, Debug)]
pub struct Costs {
    /// Stones and empty points by what it costs to enter them, and the stones that are never entered.
    by_cost: [NumberSet; BUCKETS],
    /// The empty points that touch so many stones and edges.
    by_touch: [NumberSet; 5],
}

impl Costs {
    /// The costs for the side of this colour.
    pub fn of(board: &Board, colour: Colour) -> Costs {
        let mut costs = Costs {
            by_cost: [NumberSet::empty(); BUCKETS],
            by_touch: [NumberSet::empty(); 5],
        };
        for chain in board.chains().iter() {
            if let Some(cost) = chain_cost(chain.colour == colour, chain.liberties.len()) {
                costs.add_cost(&chain.stones, cost);
            }
        }
        for point in board.empty().iter() {
            costs.add_point(board, colour, point);
        }
        costs
    }

    fn add_cost(&mut self, points: &NumberSet, cost: usize) {
        if cost < BUCKETS {
            let all = self.by_cost[cost].or(points);
            self.by_cost[cost] = all;
        }
    }

    fn add_point(&mut self, board: &Board, colour: Colour, point: usize) {
        let near = board.beside(&NumberSet::of(point));
        let edges = 4usize.saturating_sub(near.len());
        let friends = near.and(&board.stones(colour)).len();
        let stones = near.and(&board.stones(colour.opponent()));
        let mut walls: usize = 0;
        for number in board.chains_at(&stones).iter() {
            if let Some(chain) = board.chain(number) {
                if chain.liberties.len() > 3 {
                    walls = walls.saturating_add(1);
                }
            }
        }
        self.add_cost(&NumberSet::of(point), point_cost(walls, friends, edges));
        let touch = edges
            .saturating_add(friends)
            .saturating_add(stones.len())
            .min(4);
        let mut all = self.by_touch[touch];
        all.insert(point);
        self.by_touch[touch] = all;
    }
}

/// What it costs to enter a chain, its owner's or the other side's. `None` if it is never entered.
fn chain_cost(is_own: bool, liberties: usize) -> Option<usize> {
    match (is_own, liberties) {
        (true, 0..=3) => Some(0),
        (true, 4..=5) => Some(2),
        (true, _) => Some(4),
        (false, 0..=2) => Some(1),
        (false, 3) => Some(3),
        (false, _) => None,
    }
}

/// What it costs to enter a point with so many walls, stones of its owner, and edges beside it.
fn point_cost(walls: usize, friends: usize, edges: usize) -> usize {
    if walls > 0 && friends == 0 {
        5
    } else if walls == 0 && friends.saturating_add(edges) >= 2 {
        1
    } else if walls == 0 && friends == 0 && edges == 0 {
        3
    } else {
        2
    }
}

/// A walk that is under way.
#[derive(Clone, Copy, Debug)]
struct Walk {
    due: [NumberSet; BUCKETS],
    done: NumberSet,
    /// The points that are never entered.
    barred: NumberSet,
}

impl Walk {
    /// Takes what is due at this distance, whole chains.
    fn take(&mut self, board: &Board, distance: usize) -> NumberSet {
        let turn = distance % BUCKETS;
        let due = self.due[turn].minus(&self.done);
        self.due[turn] = NumberSet::empty();
        let blacks = board.joined(&due, &board.stones(Colour::Black));
        let whites = board.joined(&due, &board.stones(Colour::White));
        let taken = due.or(&blacks).or(&whites);
        self.done = self.done.or(&taken);
        taken
    }

    /// Offers what is beside the points that were reached at this distance.
    fn offer(&mut self, board: &Board, costs: &Costs, reached: &NumberSet, distance: usize) {
        let near = board.beside(reached).minus(&self.done).minus(&self.barred);
        for cost in 0..BUCKETS {
            let turn = distance.saturating_add(cost) % BUCKETS;
            let due = self.due[turn].or(&near.and(&costs.by_cost[cost]));
            self.due[turn] = due;
        }
    }

    /// Everything that is reached at this distance.
    fn settle(&mut self, board: &Board, costs: &Costs, distance: usize) -> NumberSet {
        let mut all = NumberSet::empty();
        for _ in 0..u64::MAX {
            let reached = self.take(board, distance);
            if reached.is_empty() {
                break;
            }
            self.offer(board, costs, &reached, distance);
            all = all.or(&reached);
        }
        all
    }

    fn is_over(&self) -> bool {
        for turn in 0..BUCKETS {
            if !self.due[turn].is_empty() {
                return false;
            }
        }
        true
    }
}

/// The first `most` empty points of the walk from these points, or a few more that are as good: by distance, then those that touch
/// most stones and edges, then by row and column. Barred points are never entered.
pub fn nearest_points(
    alloc: Global,
    board: &Board,
    costs: &Costs,
    from: &NumberSet,
    barred: &NumberSet,
    most: usize,
) -> Result<Vec<usize>, AllocError> {
    let mut walk = Walk {
        due: [NumberSet::empty(); BUCKETS],
        done: NumberSet::empty(),
        barred: *barred,
    };
    walk.due[0] = *from;
    let empty = board.empty();
    let mut points = Vec::new(alloc);
    for distance in 0..FARTHEST {
        if points.len() >= most || walk.is_over() {
            break;
        }
        let reached = walk.settle(board, costs, distance).and(&empty);
        push_by_touch(costs, &reached, &mut points)?;
    }
    points.truncate(most);
    Ok(points)
}

/// Appends the points, with those that touch most stones and edges first.
fn push_by_touch(
    costs: &Costs,
    reached: &NumberSet,
    points: &mut Vec<usize>,
) -> Result<(), AllocError> {
    for fewer in 0..5usize {
        for point in reached.and(&costs.by_touch[4 - fewer]).iter() {
            points.push(point)?;
        }
    }
    Ok(())
}
