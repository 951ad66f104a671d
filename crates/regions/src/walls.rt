//! Where stones are placed outside a region, and of which side.

use crate::chain::Chain;
use crate::distances::{
    ANY, attackers_moves, friends_moves, groups_moves, moves_to, or_never, rim,
};
use crate::position::Position;
use crate::sets::{add_all, meet, without};
use go_chains::ChainBoard;
use go_points::{Colour, Point, PointSet};

/// What is supposed about the points outside a region.
#[derive(Clone, Copy, Debug, PartialEq, Eq)]
pub enum Walls {
    /// Nothing: no stone is placed.
    Open,
    /// Weak walls fall: the defender gets the outside liberties of each wall that has at most three.
    Kind,
    /// The attacker gets the points of the edge that it is nearer to.
    Natural,
    /// The defender is shut in, and cut off from every friend.
    Hard,
    /// The attacker gets the points of the edge that it reaches no later than the group; walls that cannot get away fall.
    Race,
    /// Like `Race`, but all walls with one or two liberties outside fall.
    Given,
    /// Like `Race`, with no friend that helps and no wall that falls, and with the named points shut.
    Alone,
}

impl Walls {
    /// The walls of this name.
    pub fn named(name: &str) -> Option<Walls> {
        match name {
            "open" => Some(Walls::Open),
            "kind" => Some(Walls::Kind),
            "natural" => Some(Walls::Natural),
            "hard" => Some(Walls::Hard),
            "race" => Some(Walls::Race),
            "given" => Some(Walls::Given),
            "alone" => Some(Walls::Alone),
            _ => None,
        }
    }

    /// Their name.
    pub fn name(self) -> &'static str {
        match self {
            Walls::Open => "open",
            Walls::Kind => "kind",
            Walls::Natural => "natural",
            Walls::Hard => "hard",
            Walls::Race => "race",
            Walls::Given => "given",
            Walls::Alone => "alone",
        }
    }
}

/// A friend with more liberties than this is safe.
pub(crate) const FRIEND: usize = 4;

/// Points at the edge of a region.
#[derive(Clone, Copy, Debug)]
pub(crate) struct Edge {
    /// Where the attacker stands.
    pub(crate) held: PointSet,
    /// Where nobody stands.
    pub(crate) ways_out: PointSet,
}

/// The points at the edge where the attacker stands.
pub(crate) fn edge_of(
    position: &Position,
    target: &Chain,
    inside: &PointSet,
    walls: Walls,
) -> Edge {
    match walls {
        Walls::Open | Walls::Kind => held(PointSet::new()),
        Walls::Hard => held(rim(position, target, inside, ANY)),
        Walls::Natural => held(natural(position, target, inside)),
        Walls::Race | Walls::Given => race(position, target, inside, FRIEND),
        Walls::Alone => race(position, target, inside, ANY),
    }
}

/// An edge with these points held and no ways out looked for.
fn held(points: PointSet) -> Edge {
    Edge {
        held: points,
        ways_out: PointSet::new(),
    }
}

/// The points of the edge that the attacker reaches within four moves and no later than a friend.
fn natural(position: &Position, target: &Chain, inside: &PointSet) -> PointSet {
    let attackers = attackers_moves(position, target.colour, inside);
    let attacker = moves_to(position, inside, &attackers);
    let friends = friends_moves(position, target, inside);
    let friend = moves_to(position, inside, &friends);
    let mut held = PointSet::new();
    for point in rim(position, target, inside, FRIEND).iter() {
        let moves = or_never(attacker.get(point));
        if moves <= 4 && moves <= or_never(friend.get(point)) {
            held.insert(point);
        }
    }
    held
}

/// The points of the edge that the attacker reaches no later than the group, and the others, which are ways out.
pub(crate) fn race(position: &Position, target: &Chain, inside: &PointSet, friend: usize) -> Edge {
    let attackers = attackers_moves(position, target.colour, inside);
    let attacker = moves_to(position, inside, &attackers);
    let group = groups_moves(position, target);
    let mut held = PointSet::new();
    let mut ways_out = PointSet::new();
    for point in rim(position, target, inside, friend).iter() {
        let moves = attacker.get(point);
        if moves > 0 && moves <= or_never(group.get(point)) {
            held.insert(point);
        } else {
            ways_out.insert(point);
        }
    }
    Edge { held, ways_out }
}

/// The points that are given to the defender.
pub(crate) fn given_points(
    position: &Position,
    defender: Colour,
    inside: &PointSet,
    walls: Walls,
) -> PointSet {
    match walls {
        Walls::Kind => falling(position, defender, inside, 3, ANY),
        Walls::Race => falling(position, defender, inside, 3, 1),
        Walls::Given => falling(position, defender, inside, 2, ANY),
        _ => PointSet::new(),
    }
}

/// The outside liberties of the walls that fall: chains of the attacker with a liberty inside and 1 to `most` outside which,
/// extended at any of the outside ones, would have at most `gain` outside.
fn falling(
    position: &Position,
    defender: Colour,
    inside: &PointSet,
    most: usize,
    gain: usize,
) -> PointSet {
    let mut fallen = PointSet::new();
    for chain in position.chains() {
        if chain.colour != defender && meet(&chain.liberties, inside) {
            let outside = without(&chain.liberties, inside);
            if !outside.is_empty()
                && outside.len() <= most
                && gains_little(position, chain.colour, inside, &outside, gain)
            {
                add_all(&mut fallen, &outside);
            }
        }
    }
    fallen
}

/// Whether a stone at any of these liberties leaves its chain at most `gain` outside.
fn gains_little(
    position: &Position,
    colour: Colour,
    inside: &PointSet,
    outside: &PointSet,
    gain: usize,
) -> bool {
    if gain == ANY {
        return true;
    }
    for point in outside.iter() {
        if without(&liberties_after(position, colour, point), inside).len() > gain {
            return false;
        }
    }
    true
}

/// The liberties of the chain of a stone that is played at the point.
fn liberties_after(position: &Position, colour: Colour, point: Point) -> PointSet {
    let Ok(mut board) = ChainBoard::from_colouring(position.colouring()) else {
        return PointSet::new();
    };
    if !board.size().holds(point) || board.play(colour, point).is_err() {
        return PointSet::new();
    }
    board.liberties(point).unwrap_or(PointSet::new())
}
