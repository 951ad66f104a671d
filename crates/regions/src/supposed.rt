//! A position in which something is supposed about what is outside a region.

ghost use Rattle.std.specs.Prelude.{IfOk, IfSome};
ghost use Rattle.regions.specs.PutUp.{IsSupposed};

use crate::chain::Chain;
use crate::order::Order;
use crate::position::Position;
use crate::put_up::put_up;
use crate::sets::{add_all, is_within, without};
use crate::walls::{Edge, Walls, edge_of, given_points};
use go_points::{Colour, Colouring, Point, PointSet};
use std::alloc::{AllocError, Global};

/// A position with stones that were placed outside a region, and the region.
#[derive(Clone, Copy, Debug)]
pub struct Supposed {
    pub colouring: Colouring,
    pub defender: Colour,
    /// The empty points of the region.
    pub inside: PointSet,
    /// The empty points of the region, and the stones that can be taken.
    pub region: PointSet,
    /// Where stones of the defender were placed.
    pub given: PointSet,
    /// Where stones of the attacker were placed.
    pub walls: PointSet,
    /// Points at the edge where no stone was placed, if they are looked for.
    pub ways_out: PointSet,
}

/// The position with the first `count` empty points inside, and with these walls; what is shut is the attacker's too. `None` if
/// there is no stone at the target. It fails only if memory is refused.
///
/// If nothing is supposed that keeps the target from getting out, its liberties are inside, since otherwise it could not be taken.
pub fn suppose(
    alloc: Global,
    position: &Position,
    target: Point,
    order: &Order,
    count: usize,
    walls: Walls,
    shut: &PointSet,
) -> Result<Option<Supposed>, AllocError>
    ensures { IfOk result (λ made. IfSome made (λ s. IsSupposed position.now.colouring s)) }
{
    let Some(chain) = position.chain_at(target) else {
        return Ok(None);
    };
    let mut inside = order.first(count);
    if walls == Walls::Open || walls == Walls::Kind {
        add_all(&mut inside, &chain.liberties);
    }
    let falls = given_points(position, chain.colour, &inside, walls);
    let edge = edge_of(position, chain, &inside, walls);
    Ok(Some(put_both(alloc, position, chain.colour, inside, falls, edge, shut)?))
}

/// The position with the stones that are given to the defender, and then with the attacker's.
pub(crate) fn put_both(
    alloc: Global,
    position: &Position,
    defender: Colour,
    inside: PointSet,
    falls: PointSet,
    edge: Edge,
    shut: &PointSet,
) -> Result<Supposed, AllocError>
    ensures { IfOk result (λ s. IsSupposed position.now.colouring s) }
{
    let first = put_up(alloc, position.colouring(), &inside, falls, defender)?;
    let mut held = still_empty(&first.position, &edge.held);
    add_all(
        &mut held,
        &without(&still_empty(&first.position, shut), &inside),
    );
    let ways_out = without(&still_empty(&first.position, &edge.ways_out), &held);
    let last = put_up(
        alloc,
        first.position.colouring(),
        &inside,
        held,
        defender.opponent(),
    )?;
    Ok(Supposed {
        colouring: *last.position.colouring(),
        defender,
        inside,
        region: region_of(&last.position, &inside),
        given: first.points,
        walls: last.points,
        ways_out,
    })
}

/// The points of the set that hold no stone.
fn still_empty(position: &Position, set: &PointSet) -> PointSet {
    let mut empty = PointSet::new();
    for point in set.iter() {
        if position.is_empty_at(point) {
            empty.insert(point);
        }
    }
    empty
}

/// The empty points inside, and every stone of each chain, of either colour, that has no liberty elsewhere: such chains can be
/// taken, and then their points can be played at.
fn region_of(position: &Position, inside: &PointSet) -> PointSet {
    let mut region = *inside;
    for chain in position.chains() {
        if is_within(&chain.liberties, inside) {
            add_all(&mut region, &chain.stones);
        }
    }
    region
}
