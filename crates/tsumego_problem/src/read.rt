//! The problem of a tree.

ghost use Rattle.std.specs.Prelude.{◌≡◌, IfOk, IfErr, map, Some, Ok};
ghost use Rattle.std.specs.List.{All};
ghost use Rattle.go_points.specs.declared.Colour.TheVariants.{Black};
ghost use Rattle.go_points.specs.Place.{IsOn, number_of};
ghost use Rattle.tsumego_problem.specs.declared.fault.ProblemFault.TheVariants.{Memory};
ghost use Rattle.tsumego_problem.specs.Walk.{is_go, board_size, region_at, problem_at, problem_within, walk_node, opening, history_limit};
ghost use Rattle.tsumego_problem.specs.Walked.{walk_of, IsHistory, HasReached, IsRefusal};

use crate::fault::ProblemFault;
use crate::main_line::{has, locate, values_at};
use crate::named_points::{all_points, points_at};
use crate::node_change::assigned;
use crate::node_fault::node_fault;
use crate::sizes::read_size;
use crate::values::trim;
use crate::walk::walk_line;
use go_points::{Colour, Colouring, PointSet, Size};
use go_turns::{Board, PlayBoard, PlayRecord, Record, Seen, TurnFault};
use sgf_text::{SgfNode, Tree};
use std::alloc::{AllocError, Global};
use target_game::Problem;

/// Whether the root says that the game is Go: GM is 1, or absent.
fn is_go(root: &SgfNode) -> bool
    ensures { result ≡ is_go root.now }
{
    match values_at(b"GM", root) {
        [] => true,
        [value] => trim(value.as_slice()) == b"1".as_slice(),
        _ => false,
    }
}

/// The number of rows if the record does not give it, as SGF FF[4] defines it for Go ("Root properties", SZ).
pub(crate) const DEFAULT_SIZE: u8 = 19;

/// The size that the root gives; the default of 19 rows if SZ is absent.
pub fn board_size(root: &SgfNode) -> Option<Size>
    ensures { result ≡ board_size root.now }
{
    match values_at(b"SZ", root) {
        [] => Size::new(DEFAULT_SIZE),
        [value] => read_size(value.as_slice()),
        _ => None,
    }
}

/// The record that the walk begins with.
fn open(alloc: Global, size: Size, root: &SgfNode) -> Result<PlayRecord, ProblemFault>
    ensures ok { IfOk result (λ r. walk_of r Black ≡ opening size root.now) }
    ensures size { IfOk result (λ r. r.size ≡ size) }
    ensures history { IfOk result (λ r. IsHistory size r.present.history) }
    ensures refused { IfErr result
        (λ e. IsRefusal (walk_node (Some history_limit) size 0 root.now (opening size root.now))
        e) }
{
    let board = PlayBoard::new(size);
    let colouring = assigned(size, root, &board.colouring());
    match Record::new(alloc, &colouring) {
        Ok(played) => Ok(played),
        Err(TurnFault::NoLiberty { .. }) => match node_fault(size, 0, root) {
            Some(fault) => Err(fault),
            None => Err(ProblemFault::NoLiberty { node: 0 }),
        },
        Err(TurnFault::Memory) => Err(ProblemFault::Memory),
        Err(_) => unreachable!(),
    }
}

/// The region of a problem node, which is the whole board without SQ.
fn region_at(size: Size, node: &SgfNode) -> PointSet
    ensures value { map (number_of size) result ≡ region_at size node.now }
    ensures on_board { All (IsOn size) result }
{
    if has(b"SQ", node) {
        points_at(size, b"SQ", node)
    } else {
        all_points(size)
    }
}

/// The colourings that have occurred, in their order, in memory of its own.
pub fn history_of<S: Seen>(alloc: Global, seen: &S) -> Result<Vec<Colouring>, AllocError>
    ensures { IfOk result (λ history. history.items ≡ S.content seen.now) }
{
    let mut history = Vec::new(alloc);
    for place in 0..seen.len() {
        history.push(*seen.at(place))?;
    }
    Ok(history)
}

/// The problem that the walk has led to. It is a problem, since the walk has made every check that a problem needs.
fn problem_at(
    alloc: Global,
    played: &PlayRecord,
    size: Size,
    mover: Colour,
    node: &SgfNode,
) -> Result<Problem, ProblemFault>
    requires size { played.now.size ≡ size }
    requires reached { HasReached (Some history_limit) size node.now (walk_of played.now mover) }
    ensures ok { IfOk result (λ q. q ≡ problem_at size node.now (walk_of played.now mover)) }
    ensures err { IfErr result (λ e. e ≡ Memory) }
{
    prove!(size.area() > 0);
    let Ok(history) = history_of(alloc, played.seen()) else {
        return Err(ProblemFault::Memory);
    };
    let place = played.seen().holds(&played.colouring()).unwrap_or(0);
    let targets = points_at(size, b"TR", node);
    let region = region_at(size, node);
    match Problem::new(history, place, mover, played.passes(), targets, region) {
        Ok(problem) => Ok(problem),
        Err(_) => unreachable!(),
    }
}

/// The problem of a record, or the first refusal. The main line is walked up to the first node with TR or SQ (SGF FF[4], with this
/// project's own walk).
pub fn read_problem(alloc: Global, tree: &Tree) -> Result<Problem, ProblemFault>
    ensures ok { IfOk result (λ q. problem_within (Some history_limit) tree.now ≡ Ok q) }
    ensures refused { IfErr result
        (λ e. IsRefusal (problem_within (Some history_limit) tree.now) e) }
{
    let root = &tree.nodes()[0];
    if !is_go(root) {
        return Err(ProblemFault::Game);
    }
    let Some(size) = board_size(root) else {
        return Err(ProblemFault::Size);
    };
    if locate(tree).is_none() {
        return Err(ProblemFault::NoProblemNode);
    }
    let mut played = match open(alloc, size, root) {
        Ok(played) => played,
        Err(fault) => return Err(fault),
    };
    match walk_line(&mut played, size, Colour::Black, tree) {
        Ok((node, mover)) => problem_at(alloc, &played, size, mover, node),
        Err(fault) => Err(fault),
    }
}
