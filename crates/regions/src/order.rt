//! The order in which empty points come into the region of a target: one walk from the target, cheapest points first.
//!
//! Points inside the target's own shape cost least, and those along a wall of the attacker most. The walk goes through weak chains
//! of the attacker, which the target may take, and their liberties; strong chains end it.

use crate::chain::Chain;
use crate::place::{edges, neighbours};
use crate::point_map::PointMap;
use crate::position::Position;
use go_points::{Cell, Colour, MAX_POINTS, Point, PointSet};
use std::alloc::{AllocError, Global};

/// A chain of the attacker with more liberties than this is a wall.
const WEAK: usize = 3;

/// All costs are less than this, so this many buckets, used in turn, hold everything that is due.
const BUCKETS: usize = 6;

/// No distance is greater: this is each point of the widest board at the greatest cost.
const FARTHEST: u16 = 3_200;

/// The empty points that the target reaches, the likeliest to matter first.
#[derive(Drop)]
pub struct Order {
    points: Vec<Point>,
}

impl Order {
    /// The order for the target at this point: by distance, then by how many stones and edges a point touches (most first), then by
    /// row and column. The barred points are never entered. It fails only if memory is refused.
    pub fn new(
        alloc: Global,
        position: &Position,
        target: Point,
        barred: &PointSet,
    ) -> Result<Order, AllocError> {
        let mut points = Vec::new(alloc);
        let Cell::Stone(defender) = position.cell(target) else {
            return Ok(Order { points });
        };
        let mut walk = Walk::begin(defender, *barred, &position.stones(target));
        for distance in 0..FARTHEST {
            if walk.is_over() {
                break;
            }
            let reached = walk.settle(position, distance);
            push_by_touch(position, &reached, &mut points)?;
        }
        Ok(Order { points })
    }

    /// How many points are reached.
    pub fn len(&self) -> usize {
        self.points.len()
    }

    /// The first `count` of them.
    pub fn first(&self, count: usize) -> PointSet {
        let mut set = PointSet::new();
        for i in 0..self.points.len().min(count) {
            set.insert(self.points[i]);
        }
        set
    }
}

/// Appends the points, with those that touch most stones and edges first.
fn push_by_touch(
    position: &Position,
    set: &PointSet,
    points: &mut Vec<Point>,
) -> Result<(), AllocError> {
    for fewer in 0..5usize {
        for point in set.iter() {
            if touched(position, point).saturating_add(fewer) == 4 {
                points.push(point)?;
            }
        }
    }
    Ok(())
}

/// How many stones and edges the point touches.
fn touched(position: &Position, point: Point) -> usize {
    let size = position.size();
    let mut count = edges(size, point);
    for near in neighbours(size, point) {
        if !position.is_empty_at(near) {
            count = count.saturating_add(1);
        }
    }
    count
}

/// What it costs to enter a chain. `None` if it is never entered.
fn chain_cost(chain: &Chain, defender: Colour) -> Option<u16> {
    let liberties = chain.liberties.len();
    if chain.colour == defender {
        return Some(if liberties <= 3 {
            0
        } else if liberties <= 5 {
            2
        } else {
            4
        });
    }
    match liberties {
        0..=2 => Some(1),
        3 => Some(3),
        _ => None,
    }
}

/// What it costs to enter an empty point.
fn point_cost(position: &Position, defender: Colour, point: Point) -> u16 {
    let size = position.size();
    let mut walls: usize = 0;
    let mut friends: usize = 0;
    for near in neighbours(size, point) {
        if let Some(chain) = position.chain_at(near) {
            if chain.colour == defender {
                friends = friends.saturating_add(1);
            } else if chain.liberties.len() > WEAK {
                walls = walls.saturating_add(1);
            }
        }
    }
    cost_among(walls, friends, edges(size, point))
}

/// The cost of a point with this many stones of walls, stones of the defender, and edges beside it.
fn cost_among(walls: usize, friends: usize, edges: usize) -> u16 {
    if walls > 0 && friends == 0 {
        // Behind or along the wall.
        5
    } else if walls == 0 && friends.saturating_add(edges) >= 2 {
        // Inside.
        1
    } else if walls == 0 && friends == 0 && edges == 0 {
        // Open space.
        3
    } else {
        2
    }
}

/// The walk so far. A chain is represented by its first stone.
#[derive(Clone, Copy, Debug)]
struct Walk {
    defender: Colour,
    barred: PointSet,
    /// One more than the least distance that was found.
    distances: PointMap,
    /// What is due at each of the next distances.
    due: [PointSet; BUCKETS],
}

impl Walk {
    fn begin(defender: Colour, barred: PointSet, target: &PointSet) -> Walk {
        let mut walk = Walk {
            defender,
            barred,
            distances: PointMap::new(),
            due: [PointSet::new(); BUCKETS],
        };
        if let Some(first) = target.first() {
            walk.offer(first, 0);
        }
        walk
    }

    /// Whether nothing is due.
    fn is_over(&self) -> bool {
        for place in 0..BUCKETS {
            let bucket = self.due[place];
            if !bucket.is_empty() {
                return false;
            }
        }
        true
    }

    /// Notes that the point, or the chain with this first stone, is reached at this distance, unless it is reached sooner.
    fn offer(&mut self, place: Point, distance: u16) {
        let after = distance.saturating_add(1);
        let known = self.distances.get(place);
        if known != 0 && known <= after {
            return;
        }
        self.distances.set(place, after);
        let turn = distance as usize % BUCKETS;
        let mut bucket = self.due[turn];
        bucket.insert(place);
        self.due[turn] = bucket;
    }

    /// Takes one that is due at this distance.
    fn take(&mut self, distance: u16) -> Option<Point> {
        let turn = distance as usize % BUCKETS;
        let mut bucket = self.due[turn];
        let place = bucket.first()?;
        bucket.remove(place);
        self.due[turn] = bucket;
        Some(place)
    }

    /// Goes on from everything that is reached at this distance, and returns the empty points among it.
    fn settle(&mut self, position: &Position, distance: u16) -> PointSet {
        let mut reached = PointSet::new();
        // No place is due twice at one distance.
        for _ in 0..MAX_POINTS {
            let Some(place) = self.take(distance) else {
                break;
            };
            // A place that was reached sooner in the meantime has already been handled.
            if self.distances.get(place) == distance.saturating_add(1) {
                if position.is_empty_at(place) {
                    reached.insert(place);
                }
                self.go_on(position, place, distance);
            }
        }
        reached
    }

    /// Goes on from a place to what is beside it.
    fn go_on(&mut self, position: &Position, place: Point, distance: u16) {
        match position.chain_at(place) {
            None => self.enter_beside(position, place, distance),
            Some(chain) => {
                for liberty in chain.liberties.iter() {
                    self.enter_point(position, liberty, distance);
                }
                for stone in chain.stones.iter() {
                    self.enter_chains(position, stone, distance);
                }
            }
        }
    }

    /// Goes on from an empty point.
    fn enter_beside(&mut self, position: &Position, point: Point, distance: u16) {
        for near in neighbours(position.size(), point) {
            if position.is_empty_at(near) {
                self.enter_point(position, near, distance);
            }
        }
        self.enter_chains(position, point, distance);
    }

    fn enter_point(&mut self, position: &Position, point: Point, distance: u16) {
        if !self.barred.has(point) {
            let cost = point_cost(position, self.defender, point);
            self.offer(point, distance.saturating_add(cost));
        }
    }

    /// Enters the chains that touch the point. Its own, if it holds a stone, is reached already.
    fn enter_chains(&mut self, position: &Position, point: Point, distance: u16) {
        for near in neighbours(position.size(), point) {
            if let Some(chain) = position.chain_at(near) {
                if let Some(cost) = chain_cost(chain, self.defender) {
                    if let Some(first) = chain.stones.first() {
                        self.offer(first, distance.saturating_add(cost));
                    }
                }
            }
        }
    }
}
