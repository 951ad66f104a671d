//! Groups that cannot have two eyes.
//!
//! An eye of the defender never touches a stone that cannot be taken. So the question is which points the attacker can reach with
//! such stones whatever the defender does. The points that he needs for it are put into pairs: if the defender takes one, the
//! attacker answers at the other. The answer is a guess from shape, which has to be confirmed by playing it out.

use crate::board::Board;
use crate::place_set::PlaceSet;
use crate::position::Position;

/// A guess about the defender's eyes when he is to move.
#[derive(Clone, Copy, Debug, PartialEq, Eq)]
pub struct Eyes {
    /// He cannot have two eyes.
    pub is_dead: bool,
    /// One more stone of the attacker might bring that about.
    pub is_nearly_dead: bool,
    /// How many points are left where he could have an eye.
    pub eye_points: u8,
}

/// The guess if the defender may get out, or live where nobody can fill.
const FAR: Eyes = Eyes {
    is_dead: false,
    is_nearly_dead: false,
    eye_points: 40,
};

/// What the attacker can reach.
#[derive(Clone, Copy)]
struct Reach<S> {
    position: Position<S>,
    empty: S,
    /// All places that the defender can ever come to.
    inside: S,
    /// The attacker's stones that can never be taken, or can be connected to such stones, and all places beside them.
    permanent: S,
    near: S,
    /// Points inside where a stone of the attacker cannot be taken.
    safe: S,
    /// Points that are in pairs.
    used: S,
}

impl<S: PlaceSet> Board<S> {
    /// All places that are connected with a target through places without these stones of the attacker.
    pub(crate) fn inside_of(&self, permanent: S) -> S {
        self.connected(self.targets, self.all.minus(permanent))
    }

    /// A guess about the defender's eyes. `inside` has the places that are connected with a target through places without the
    /// attacker's permanent stones, and `near` has the places beside those stones.
    pub(crate) fn guess_eyes(
        &self,
        position: Position<S>,
        permanent: S,
        inside: S,
        near: S,
    ) -> Eyes {
        // There may come to be a liberty there that nobody can fill.
        if !inside.minus(position.defender).is_within(self.region) {
            return FAR;
        }
        let mut reach = Reach {
            position,
            empty: self.empty(position),
            inside,
            permanent,
            near,
            safe: inside.and(self.lasting.attacker.or(near)),
            used: S::empty(),
        };
        if !self.close_ways_out(&mut reach) {
            return FAR;
        }
        self.connect(&mut reach);
        let left = self.points_left(&mut reach);
        self.judge_eyes(&reach, left)
    }

    /// Whether the attacker can close each way out. A way out is a point where the defender could not be taken, which he needs
    /// together with the only point beside it.
    fn close_ways_out(&self, reach: &mut Reach<S>) -> bool {
        for at in reach.inside.and(self.lasting.defender).places() {
            let free = reach.empty.and(reach.safe).minus(reach.used);
            let beside = self.near(at).and(reach.inside);
            if !free.has(at) || beside.has_several() || !beside.meets(free) {
                return false;
            }
            reach.used = reach.used.or(beside).with(at);
        }
        true
    }

    /// Finds the attacker's chains that can be connected to stones which cannot be taken.
    fn connect(&self, reach: &mut Reach<S>) {
        let attacker = reach.position.attacker;
        let stones = attacker.and(reach.inside);
        let mut rest = stones;
        // What is beside the chains that could not be connected. If another chain is connected, they may be, if they touch.
        let mut near_others = S::empty();
        for _ in 0..u64::MAX {
            let Some(at) = rest.take_first() else {
                return;
            };
            let (chain, near) = self.chain_and_near(attacker, at);
            rest = rest.minus(chain);
            let pair = self.connecting_pair(reach, chain, near);
            if pair.is_empty() {
                near_others = near_others.or(near);
                continue;
            }
            reach.used = reach.used.or(pair);
            reach.permanent = reach.permanent.or(chain);
            reach.near = reach.near.or(near);
            let safe = self.lasting.attacker.or(reach.near);
            reach.safe = reach.inside.and(safe).minus(reach.permanent);
            if near_others.meets(near) {
                rest = stones.minus(reach.permanent);
                near_others = S::empty();
            }
        }
    }

    /// Two points, either of which connects the chain, which has these places beside its stones. The set is empty if there are no
    /// two such points.
    fn connecting_pair(&self, reach: &Reach<S>, chain: S, near: S) -> S {
        let liberties = near.and(reach.empty).minus(reach.used);
        let safe = liberties.and(reach.safe);
        if safe.has_several() {
            return safe.lowest_two();
        }
        let Some(at) = safe.first() else {
            return S::empty();
        };
        // At the only safe point the defender would have no liberty, so he must first play at another point.
        let others = liberties.minus(safe);
        let walls = reach.permanent.or(chain);
        if !others.is_empty() && self.near(at).is_within(walls) && !self.lasting.defender.has(at) {
            return safe.or(others.lowest());
        }
        S::empty()
    }

    /// The points where the defender could have an eye and the attacker has no pair to destroy it. The points with the fewest safe
    /// points beside them are handled first.
    fn points_left(&self, reach: &mut Reach<S>) -> S {
        let hits = reach.safe.and(reach.empty);
        let eyes = reach
            .inside
            .minus(reach.safe)
            .minus(reach.position.defender)
            .minus(reach.permanent);
        let free = hits.minus(reach.used);
        let (_, beside_several) = self.beside_one_and_several(free);
        let several = eyes.and(beside_several);
        let (two, three, four) = self.by_count(several, free);
        let mut left = eyes.minus(several);
        left = left.or(self.pair_off(reach, hits, two));
        left = left.or(self.pair_off(reach, hits, three));
        left.or(self.pair_off(reach, hits, four))
    }

    /// Of these points, each of which has several of `hits` beside it: those that have two, three and four.
    fn by_count(&self, points: S, hits: S) -> (S, S, S) {
        let mut two = S::empty();
        let mut three = S::empty();
        let mut four = S::empty();
        for at in points.places() {
            match self.near(at).and(hits).len() {
                2 => two = two.with(at),
                3 => three = three.with(at),
                _ => four = four.with(at),
            }
        }
        (two, three, four)
    }

    /// Takes a pair beside each of these points, and returns the points that have none.
    fn pair_off(&self, reach: &mut Reach<S>, hits: S, points: S) -> S {
        let mut left = S::empty();
        for at in points.places() {
            let free = self.near(at).and(hits).minus(reach.used);
            if free.has_several() {
                reach.used = reach.used.or(free.lowest_two());
            } else {
                left = left.with(at);
            }
        }
        left
    }

    /// What follows from the points that are left for eyes.
    fn judge_eyes(&self, reach: &Reach<S>, left: S) -> Eyes {
        let eye_points = left.len();
        let attacker = reach.position.attacker;
        let is_dead = self.is_one_eye(left, attacker);
        if is_dead || eye_points > 9 {
            return Eyes {
                is_dead,
                is_nearly_dead: is_dead || eye_points <= 5,
                eye_points: eye_points.min(255) as u8,
            };
        }
        let (kills, spoils) = self.last_pair(reach, left);
        let is_dead = kills && eye_points <= 8;
        Eyes {
            is_dead,
            is_nearly_dead: is_dead || eye_points <= 5 || spoils,
            eye_points: eye_points.min(255) as u8,
        }
    }

    /// Whether there are two more safe points each of which leaves at most one eye; and whether there are two each of which leaves
    /// few points.
    fn last_pair(&self, reach: &Reach<S>, left: S) -> (bool, bool) {
        let hits = reach.safe.and(reach.empty).minus(reach.used);
        let mut kills = 0u32;
        let mut spoils = 0u32;
        for at in self.all_beside(left).and(hits).places() {
            let after = left.minus(self.near(at));
            if after.len() <= 5 {
                spoils = 1 + spoils.min(1);
                if self.is_one_eye(after, reach.position.attacker) {
                    if kills == 1 {
                        return (true, true);
                    }
                    kills = 1;
                }
            }
        }
        (false, spoils >= 2)
    }

    /// Whether the defender, if he is to move, makes at most one eye of these points, some of which hold stones of the attacker.
    fn is_one_eye(&self, points: S, attacker: S) -> bool {
        let stones = points.and(attacker);
        match points.len() {
            0 | 1 => true,
            2 => match points.first() {
                Some(at) => self.near(at).meets(points),
                None => true,
            },
            3 => self.has_with_beside(stones, points, 2),
            4 => {
                self.is_square(points) && !self.is_across(stones)
                    || self.has_with_beside(stones, points, 3)
            }
            _ => false,
        }
    }

    /// Whether one of these has exactly `count` of the points beside it.
    fn has_with_beside(&self, some: S, points: S, count: u32) -> bool {
        for at in some.places() {
            if self.near(at).and(points).len() == count {
                return true;
            }
        }
        false
    }

    /// Whether four points form a square.
    fn is_square(&self, points: S) -> bool {
        for at in points.places() {
            if self.near(at).and(points).len() != 2 {
                return false;
            }
        }
        true
    }

    /// Whether these are two stones that are not adjacent.
    fn is_across(&self, stones: S) -> bool {
        match stones.first() {
            Some(at) => stones.len() == 2 && !self.near(at).meets(stones),
            None => false,
        }
    }
}
