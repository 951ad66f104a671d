//! The walk along the main line, up to the problem node.

ghost use Rattle.std.specs.Prelude.{◌≡◌, ◌+◌, ◌<◌, ◌^◌, [], length, map, slice_index_or, IfOk, IfErr, IfSome, OnOk, Ok, Some, None};
ghost use Rattle.std.specs.List.{All};
ghost use Rattle.go_points.specs.Grid.{side_of};
ghost use Rattle.go_points.specs.Place.{IsOn, number_of};
ghost use Rattle.tsumego_problem.specs.Walk.{are_targets, late_fault, walk_node, main_line, line_below, history_limit};
ghost use Rattle.tsumego_problem.specs.Walked.{walk_of, walk_to_mark, IsRefusal, WalksTo};
ghost use Rattle.go_points.specs.declared.Colour.{Colour};

use crate::fault::ProblemFault;
use crate::main_line::{has, has_turn, is_marked};
use crate::named_points::points_at;
use crate::node_change::{assigned, change, player_at};
use crate::node_fault::node_fault;
use go_points::{Cell, Colour, Colouring, PointSet, Size};
use go_turns::{Board, PlayBoard, PlayRecord, Record, Seen, TurnFault};
use sgf_text::{SgfNode, Tree};
use target_game::{MAX_HISTORY, all_hold};

/// Whether the points hold stones of one colour, and there is at least one.
fn are_targets(colouring: &Colouring, points: &PointSet) -> bool
    requires { All (IsOn (side_of colouring.now)) points.now }
    ensures { result ≡ are_targets colouring.now
        (map (number_of (side_of colouring.now)) points.now) }
{
    let Some(first) = points.first() else {
        return false;
    };
    let cell = colouring.get(first);
    !cell.is_empty() && all_hold(colouring, points, cell)
}

/// The first of the refusals that are checked after the node has done what it says.
fn late_fault(
    played: &PlayRecord,
    size: Size,
    number: usize,
    node: &SgfNode,
) -> Option<ProblemFault>
    requires { played.now.size ≡ size }
    ensures { (mover : Colour)
        → result ≡ late_fault (Some history_limit) size number node.now (walk_of played.now mover) }
{
    if is_marked(node) && !are_targets(&played.colouring(), &points_at(size, b"TR", node)) {
        return Some(ProblemFault::BadTargets { node: number });
    }
    if is_marked(node) && played.passes() >= 2 {
        return Some(ProblemFault::Ended { node: number });
    }
    if has(b"PL", node) && !has_turn(node) && player_at(node).is_none() {
        return Some(ProblemFault::BadColour { node: number });
    }
    if played.seen().len() > MAX_HISTORY {
        return Some(ProblemFault::LongHistory { node: number });
    }
    None
}

/// Walks over one node. Returns the colour to move afterwards.
fn walk_node(
    played: &mut PlayRecord,
    size: Size,
    number: usize,
    mover: Colour,
    node: &SgfNode,
) -> Result<Colour, ProblemFault>
    requires { played.old.size ≡ size }
    ensures { WalksTo
        (walk_node (Some history_limit) size number node.now (walk_of played.old mover)) size
        played.new result }
{
    if let Some(fault) = node_fault(size, number, node) {
        return Err(fault);
    }
    let mover = match change(played, size, number, mover, node) {
        Ok(mover) => mover,
        Err(fault) => return Err(fault),
    };
    match late_fault(played, size, number, node) {
        Some(fault) => Err(fault),
        None => Ok(mover),
    }
}

/// Walks over the nodes of a tree's own sequence, up to the first marked one. The first node has this number. Returns the place of
/// the marked node in the sequence, if there is one, and the colour to move.
fn walk_sequence(
    played: &mut PlayRecord,
    size: Size,
    first: usize,
    mover: Colour,
    part: &Tree,
) -> Result<(Option<usize>, Colour), ProblemFault>
    requires size { played.old.size ≡ size }
    requires few { first + length part.now.nodes < 2 ^ 64 }
    ensures size { OnOk result (played.new.size ≡ size) }
    ensures place { IfOk result (λ r. IfSome r.0 (λ p. p < length part.now.nodes)) }
    ensures marked { IfOk result
        (λ r. IfSome r.0 (λ p. walk_to_mark (Some history_limit) size first (main_line part.now)
        (walk_of played.old mover)
        ≡ Ok (slice_index_or part.now.nodes p [], walk_of played.new r.1))) }
    ensures unmarked { IfOk result (λ r. r.0 ≡ None
        → walk_to_mark (Some history_limit) size (first + length part.now.nodes)
        (line_below part.now.children) (walk_of played.new r.1)
        ≡ walk_to_mark (Some history_limit) size first (main_line part.now)
        (walk_of played.old mover)) }
    ensures refused { IfErr result
        (λ e. IsRefusal (walk_to_mark (Some history_limit) size first (main_line part.now)
        (walk_of played.old mover)) e) }
{
    let nodes = part.nodes();
    let mut mover = mover;
    for place in 0..nodes.len() {
        let node = &nodes[place];
        match walk_node(played, size, first + place, mover, node) {
            Ok(next) => mover = next,
            Err(fault) => return Err(fault),
        }
        if is_marked(node) {
            return Ok((Some(place), mover));
        }
    }
    Ok((None, mover))
}

/// Walks along the main line up to the first marked node. Returns that node, and the colour to move there.
pub(crate) fn walk_line<'a>(
    played: &mut PlayRecord,
    size: Size,
    mover: Colour,
    tree: &'a Tree,
) -> Result<(&'a SgfNode, Colour), ProblemFault>
    requires size { played.old.size ≡ size }
    ensures size { OnOk result (played.new.size ≡ size) }
    ensures ok { IfOk result
        (λ r. walk_to_mark (Some history_limit) size 0 (main_line tree.now)
        (walk_of played.old mover) ≡ Ok (r.0.now, walk_of played.new r.1)) }
    ensures refused { IfErr result
        (λ e. IsRefusal (walk_to_mark (Some history_limit) size 0 (main_line tree.now)
        (walk_of played.old mover)) e) }
{
    let mut part = tree;
    let mut first: usize = 0;
    let mut mover = mover;
    loop {
        // More nodes than a `usize` can count are more than memory can hold.
        let Some(next) = first.checked_add(part.nodes().len()) else {
            return Err(ProblemFault::Memory);
        };
        match walk_sequence(played, size, first, mover, part) {
            Err(fault) => return Err(fault),
            Ok((Some(place), at_mark)) => return Ok((&part.nodes()[place], at_mark)),
            Ok((None, behind)) => mover = behind,
        }
        let Some(child) = part.children().first() else {
            return Err(ProblemFault::NoProblemNode);
        };
        part = child;
        first = next;
    }
}
