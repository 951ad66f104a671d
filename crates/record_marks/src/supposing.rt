//! A record with the marks of a problem in which something is supposed about what is outside the region, by placing stones there.

ghost use Rattle.std.specs.Prelude.{◌≡◌, ◌++◌, [], IfOk, IsTrue, Ok, Some, slice_index_or};
ghost use Rattle.tsumego_problem.specs.Walk.{problem_within, history_limit};
ghost use Rattle.record_marks.specs.Asked.{IsChosen, IsSupposed};
ghost use Rattle.record_marks.specs.Supposed.{IsMarkedWith, stones};

use crate::mark::push_properties;
use crate::marking::{Marks, Refusal, asked_problem, chosen_place, problem_of, with_marks};
use crate::region::whole_chains;
use crate::stones::stones;
use go_chains::ChainBoard;
use go_points::{Colour, Colouring, PointSet};
use regions::{Order, Position, Supposed, Walls, named_set, suppose};
use sgf_text::{SgfNode, Tree};
use std::alloc::{AllocError, Global};
use target_game::Problem;
use tsumego_problem::marks_node;

/// How many empty points a region has, and what is supposed outside.
#[derive(Clone, Copy, Debug, PartialEq, Eq)]
pub struct Supposition<'a> {
    pub count: usize,
    pub walls: Walls,
    /// Points outside that are the attacker's, separated by commas.
    pub shut: &'a [u8],
}

/// The record with its marks, the problem that was marked, the number of the node of the main line that was named, and where stones
/// were placed.
#[derive(Drop)]
pub struct SupposedRecord {
    pub tree: Tree,
    pub problem: Problem,
    pub place: usize,
    pub black: PointSet,
    pub white: PointSet,
}

/// What is supposed about the problem's present position, for the first of its targets.
fn supposed_of(
    alloc: Global,
    problem: &Problem,
    supposition: Supposition<'_>,
) -> Result<Supposed, Refusal> {
    let position = Position::new(alloc, problem.colouring())?;
    let Some(target) = problem.targets().first() else {
        return Err(Refusal::EmptyRegion);
    };
    let Some(shut) = named_set(problem.size(), supposition.shut) else {
        return Err(Refusal::BadShut);
    };
    let order = Order::new(alloc, &position, target, &PointSet::new())?;
    let count = supposition.count;
    let walls = supposition.walls;
    let Some(supposed) = suppose(alloc, &position, target, &order, count, walls, &shut)? else {
        return Err(Refusal::EmptyRegion);
    };
    Ok(supposed)
}

/// Whether the colourings are the same.
fn are_same(first: &Colouring, second: &Colouring) -> bool
    ensures { IsTrue result → second.now ≡ first.now }
{
    first == second
}

/// A history, the place of the present position in it, and the passes in a row.
#[derive(Drop)]
struct Past {
    history: Vec<Colouring>,
    place: usize,
    passes: u64,
}

/// The history of the problem, which goes on with this position, if that is another one.
fn past_with(alloc: Global, problem: &Problem, colouring: &Colouring) -> Result<Past, AllocError>
    ensures { IfOk result (λ p. slice_index_or p.history.items p.place [] ≡ colouring.now) }
{
    let mut history = problem.history().to_vec(alloc)?;
    if are_same(problem.colouring(), colouring) {
        return Ok(Past {
            history,
            place: problem.place(),
            passes: problem.passes(),
        });
    }
    let place = history.len();
    history.push(*colouring)?;
    Ok(Past {
        history,
        place,
        passes: 0,
    })
}

/// The problem after the stones were placed: its history goes on with the new position, if there is one.
fn problem_with(alloc: Global, problem: &Problem, supposed: &Supposed) -> Result<Problem, Refusal>
    ensures { IfOk result (λ made. IsSupposed problem.now made) }
{
    let Ok(board) = ChainBoard::from_colouring(&supposed.colouring) else {
        return Err(Refusal::BadMarks);
    };
    let targets = whole_chains(&board, problem.targets());
    let past = past_with(alloc, problem, &supposed.colouring)?;
    let mover = problem.mover();
    match Problem::new(
        past.history,
        past.place,
        mover,
        past.passes,
        targets,
        supposed.region,
    ) {
        Ok(made) => Ok(made),
        Err(_) => Err(Refusal::EmptyRegion),
    }
}

/// Where stones of this colour were placed.
fn put_of(supposed: &Supposed, colour: Colour) -> PointSet {
    if supposed.defender == colour {
        supposed.given
    } else {
        supposed.walls
    }
}

/// The node with the stones that are placed, and the marks.
fn node_with(
    alloc: Global,
    black: &PointSet,
    white: &PointSet,
    marks: &SgfNode,
) -> Result<SgfNode, Refusal>
    ensures { IfOk result (λ node. node ≡ stones black.now white.now ++ marks.now) }
{
    let mut properties = stones(alloc, black, white)?;
    push_properties(alloc, marks.as_slice(), &mut properties)?;
    match SgfNode::new(properties) {
        Some(node) => Ok(node),
        None => Err(Refusal::BadMarks),
    }
}

/// The record with the stones that are placed and the marks, at a node of its main line. No node before it is marked, and
/// everything else stays as it is. If stones are placed, they and the marks have a node of their own.
///
/// The new record is read again: it has a problem.
pub fn supposed_record(
    alloc: Global,
    tree: &Tree,
    wanted: Marks<'_>,
    supposition: Supposition<'_>,
) -> Result<SupposedRecord, Refusal>
    ensures marked { IfOk result (λ r. IsMarkedWith wanted.entry r.place r.black r.white
        tree.now r.tree) }
    ensures place { IfOk result (λ r. IsChosen wanted.entry.node r.place) }
    ensures problem { IfOk result (λ r. problem_within (Some history_limit) r.tree ≡ Ok r.problem) }
{
    let place = chosen_place(tree, wanted.node);
    let asked = asked_problem(alloc, tree, place, wanted)?;
    let supposed = supposed_of(alloc, &asked, supposition)?;
    let complete = problem_with(alloc, &asked, &supposed)?;
    let black = put_of(&supposed, Colour::Black);
    let white = put_of(&supposed, Colour::White);
    let marks = marks_node(alloc, &complete)?;
    let node = node_with(alloc, &black, &white, &marks)?;
    let made = with_marks(alloc, tree, place, &node)?;
    let problem = problem_of(alloc, &made)?;
    Ok(SupposedRecord {
        tree: made,
        problem,
        place,
        black,
        white,
    })
}
