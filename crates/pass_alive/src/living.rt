//! The stones that live by their shape: those that are left when chains without two eyes and without a lasting liberty are taken
//! away, again and again.

ghost use Rattle.std.specs.Prelude.{◌↔◌, IsTrue, IsFalse, IfSome, IfNone, map};
ghost use Rattle.go_points.specs.declared.Cell.TheVariants.{Stone};
ghost use Rattle.go_points.specs.Grid.{same_cell, cell_at, side_of};
ghost use Rattle.go_points.specs.Place.{Place, number_of};
ghost use Rattle.go_chains.specs.Joined.{IsChainOf, HoldsThose};
ghost use Rattle.pass_alive.specs.Life.{PassAlive};
ghost use Rattle.pass_alive.specs.Sets.{these, number_on, game_of, AreLiving};
ghost use Rattle.pass_alive.specs.Private.Areas.{areas_in, MayLive, IsSafe, AreLeft, IsLess, is_due};

use crate::around::{add_stones_near, all_around};
use crate::chains::chain_at;
use crate::eyes::has_two_eyes;
use crate::lasting::{doubtful_stones, is_lasting};
use crate::sets::{are_members, put_in, take_out};
use go_chains::ChainBoard;
use go_points::{Colour, MAX_POINTS, Point, PointSet};

/// Whether the chain of the point has a lasting liberty, or two eyes that these stones enclose.
fn is_safe(
    board: &ChainBoard,
    colour: Colour,
    region: &PointSet,
    stones: &PointSet,
    chain: &PointSet,
    point: Point,
) -> bool
    requires { IsChainOf (side_of board.now) board.now
        (number_of (side_of board.now) point) chain.now }
    ensures sound { IsTrue result → IsSafe (side_of board.now)
        (map (number_on (side_of board.now)) region.now) board.now (areas_in colour board.now)
        (these (side_of board.now) stones.now) (number_of (side_of board.now) point) }
    ensures complete { MayLive (side_of board.now)
        (map (number_on (side_of board.now)) region.now) board.now (areas_in colour board.now)
        (these (side_of board.now) stones.now) (number_of (side_of board.now) point)
        → IsTrue result }
{
    is_lasting(board, region, chain) || has_two_eyes(board, colour, stones, chain)
}

/// A chain with more stones is judged late: it takes long, and may be due after each chain that falls beside it.
const FEW_STONES: usize = 8;

/// The next stone whose chain is to be judged: the first after this point of those that are due, or from the front again, and only
/// then one of those that are due late. So a chain is judged once for many that fall at about the same time.
fn next_due(due: &PointSet, late: &PointSet, after: Point) -> Option<Point>
    ensures some { IfSome result (λ p. IsTrue (is_due due.now late.now p)) }
    ensures none { IfNone result ((p : Place) → IsFalse (is_due due.now late.now p)) }
{
    if let Some(point) = due.first_after(after) {
        return Some(point);
    }
    if let Some(point) = due.first() {
        return Some(point);
    }
    late.first()
}

/// Judges the chain at the point, or puts it off. If it is safe by the stones that are left so far, it is no longer due. Otherwise
/// it is taken away, and the chains that may have lived by it are due.
fn judge(
    board: &ChainBoard,
    colour: Colour,
    region: &PointSet,
    stones: &mut PointSet,
    due: &mut PointSet,
    late: &mut PointSet,
    point: Point,
)
    requires due { IsTrue (is_due due.old late.old point) }
    requires so_far { AreLeft (side_of board.now) colour region.now board.now stones.old
        (is_due due.old late.old) }
    ensures so_far { AreLeft (side_of board.now) colour region.now board.now stones.new
        (is_due due.new late.new) }
    ensures less { IsLess stones.old due.old late.old stones.new due.new late.new }
{
    let Some(chain) = chain_at(board, point) else {
        return;
    };
    if due.has(point) && chain.len() > FEW_STONES {
        take_out(due, &chain);
        put_in(late, &chain);
        return;
    }
    take_out(due, &chain);
    take_out(late, &chain);
    if is_safe(board, colour, region, stones, &chain, point) {
        return;
    }
    take_out(stones, &chain);
    add_stones_near(board, due, stones, late, &all_around(board, &chain));
}

/// The stones of the colour.
fn stones_of(board: &ChainBoard, colour: Colour) -> PointSet
    ensures { HoldsThose (side_of board.now) (λ q. same_cell (cell_at board.now q) (Stone colour))
        result }
{
    let size = board.size();
    let mut stones = PointSet::new();
    for number in 0..size.area() {
        let point = size.point_at(number);
        if board.cell(point).is_stone_of(colour) {
            stones.insert(point);
        }
    }
    stones
}

/// All stones of this colour that live by their shape, if moves are made only in this region.
///
/// A stone beside an empty point outside the region is not looked at again. Each chain with other stones is judged once, and then
/// again where chains have been taken away that have a stone two steps from one of its own.
pub fn living_stones(board: &ChainBoard, colour: Colour, region: &PointSet) -> PointSet
    ensures { AreLiving (side_of board.now) colour region.now board.now result }
{
    let mut stones = stones_of(board, colour);
    let mut due = doubtful_stones(board, region, &stones);
    let mut late = PointSet::new();
    let mut last = Point::default();
    while let Some(point) = next_due(&due, &late, last) {
        judge(
            board,
            colour,
            region,
            &mut stones,
            &mut due,
            &mut late,
            point,
        );
        last = point;
        prove!(due.len() <= MAX_POINTS);
        prove!(late.len() <= MAX_POINTS);
    }
    stones
}

/// Whether each target is a stone of the defender's that lives by its shape, if moves are made only in this region. A target off the
/// board is none. The cost is that of `living_stones`.
pub fn is_pass_alive(
    board: &ChainBoard,
    targets: &PointSet,
    defender: Colour,
    region: &PointSet,
) -> bool
    ensures { IsTrue result ↔ PassAlive
        (game_of (side_of board.now) targets.now defender region.now) board.now }
{
    are_members(targets, &living_stones(board, defender, region))
}
