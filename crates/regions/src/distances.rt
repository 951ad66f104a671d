//! The edge of a region, and how many moves away each side is from its points.

use crate::chain::Chain;
use crate::place::neighbours;
use crate::point_map::PointMap;
use crate::position::Position;
use crate::sets::{add_all, is_within, meet, without};
use go_points::{Colour, MAX_POINTS, Point, PointSet};

/// The distance of what cannot be reached.
pub(crate) const NEVER: u16 = 99;

/// Whether the chain has a liberty inside and one outside.
fn is_astride(chain: &Chain, inside: &PointSet) -> bool {
    meet(&chain.liberties, inside) && !is_within(&chain.liberties, inside)
}

/// The empty points outside at the edge of a set: those beside it, the target's liberties, and those of the defender's chains that
/// have a liberty in the set and at most `weak` in all.
pub(crate) fn rim(position: &Position, target: &Chain, inside: &PointSet, weak: usize) -> PointSet {
    let mut edge = without(&target.liberties, inside);
    for point in inside.iter() {
        for near in neighbours(position.size(), point) {
            if position.is_empty_at(near) && !inside.has(near) {
                edge.insert(near);
            }
        }
    }
    for chain in position.chains() {
        if chain.colour == target.colour
            && chain.liberties.len() <= weak
            && is_astride(chain, inside)
        {
            add_all(&mut edge, &without(&chain.liberties, inside));
        }
    }
    edge
}

/// The attacker's first moves outside: the liberties there of all its chains that are not shut in by the set.
pub(crate) fn attackers_moves(
    position: &Position,
    defender: Colour,
    inside: &PointSet,
) -> PointSet {
    let mut moves = PointSet::new();
    for chain in position.chains() {
        if chain.colour != defender {
            add_all(&mut moves, &without(&chain.liberties, inside));
        }
    }
    moves
}

/// The first moves outside of the defender's friends: its chains that are not of the group, which is the target and each
/// chain with a liberty in the set and at most four outside.
pub(crate) fn friends_moves(position: &Position, target: &Chain, inside: &PointSet) -> PointSet {
    let mut moves = PointSet::new();
    for chain in position.chains() {
        let outside = without(&chain.liberties, inside);
        let is_of_group = chain.stones == target.stones
            || meet(&chain.liberties, inside) && outside.len() <= 4;
        if chain.colour == target.colour && !is_of_group {
            add_all(&mut moves, &outside);
        }
    }
    moves
}

/// In how many moves each empty point outside the set is reached from these first moves, by steps through such points; 0 if it is
/// not reached.
pub(crate) fn moves_to(position: &Position, inside: &PointSet, first: &PointSet) -> PointMap {
    let mut map = PointMap::new();
    let mut wave = *first;
    for count in 1..NEVER {
        for point in wave.iter() {
            map.set(point, count);
        }
        let mut next = PointSet::new();
        for point in wave.iter() {
            for near in neighbours(position.size(), point) {
                if position.is_empty_at(near) && !inside.has(near) && map.get(near) == 0 {
                    next.insert(near);
                }
            }
        }
        if next.is_empty() {
            break;
        }
        wave = next;
    }
    map
}

/// In how many moves of its own the group can have a stone on each empty point, including those inside; its own chains on the way
/// cost nothing; 0 if it cannot.
pub(crate) fn groups_moves(position: &Position, target: &Chain) -> PointMap {
    let mut map = PointMap::new();
    let mut joined = target.stones;
    let mut wave = target.liberties;
    for count in 1..NEVER {
        for point in wave.iter() {
            map.set(point, count);
        }
        let mut next = PointSet::new();
        for point in wave.iter() {
            add_next(position, target.colour, point, &mut joined, &mut next);
        }
        let next = unknown(&next, &map);
        if next.is_empty() {
            break;
        }
        wave = next;
    }
    map
}

/// The points of the set that have no number yet.
fn unknown(set: &PointSet, map: &PointMap) -> PointSet {
    let mut rest = PointSet::new();
    for point in set.iter() {
        if map.get(point) == 0 {
            rest.insert(point);
        }
    }
    rest
}

/// Adds to the set what a group at the point reaches with one more move, through chains that it had not joined.
fn add_next(
    position: &Position,
    defender: Colour,
    point: Point,
    joined: &mut PointSet,
    next: &mut PointSet,
) {
    for near in neighbours(position.size(), point) {
        match position.chain_at(near) {
            None => next.insert(near),
            Some(chain) => {
                if chain.colour == defender && !joined.has(near) {
                    add_all(joined, &chain.stones);
                    add_all(next, &chain.liberties);
                }
            }
        }
    }
}

/// The number, or `NEVER` for what is never reached.
pub(crate) fn or_never(number: u16) -> u16 {
    if number == 0 { NEVER } else { number }
}

/// More liberties than any chain has.
pub(crate) const ANY: usize = MAX_POINTS;
