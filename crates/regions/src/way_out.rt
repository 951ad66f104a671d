//! Whether a stone that gets out can be taken there.

use crate::distances::{ANY, rim};
use crate::order::Order;
use crate::position::Position;
use crate::sets::{add_all, common};
use crate::supposed::{Supposed, put_both};
use crate::walls::{FRIEND, race};
use go_chains::ChainBoard;
use go_points::{Colour, Colouring, Point, PointSet};
use std::alloc::{AllocError, Global};

/// How many empty points such a question has.
const POINTS: usize = 6;

/// The colouring after a move at the point, if its stone is there afterwards.
fn after_move(before: &Colouring, colour: Colour, point: Point) -> Option<Colouring> {
    let Ok(mut board) = ChainBoard::from_colouring(before) else {
        return None;
    };
    if !board.size().holds(point) || board.play(colour, point).is_err() {
        return None;
    }
    if board.cell(point).is_stone_of(colour) {
        Some(board.colouring())
    } else {
        None
    }
}

/// The question whether a stone of the defender that has got out to the point can be taken, with the attacker to move. What is
/// inside gives it no help. `None` if no stone could be there.
pub fn out_there(
    alloc: Global,
    before: &Colouring,
    defender: Colour,
    inside: &PointSet,
    point: Point,
) -> Result<Option<Supposed>, AllocError> {
    let Some(after) = after_move(before, defender, point) else {
        return Ok(None);
    };
    let position = Position::new(alloc, &after)?;
    let order = Order::new(alloc, &position, point, inside)?;
    let Some(target) = position.chain_at(point) else {
        return Ok(None);
    };
    let there = order.first(POINTS);
    let mut edge = race(&position, target, &there, FRIEND);
    add_all(
        &mut edge.held,
        &common(&rim(&position, target, &there, ANY), inside),
    );
    let falls = PointSet::new();
    let shut = PointSet::new();
    Ok(Some(put_both(alloc, &position, defender, there, falls, edge, &shut)?))
}
