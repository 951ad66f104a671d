//! The record with the problem at the node that is asked for.

ghost use Rattle.std.specs.Prelude.{◌≡◌, ◌++◌, ◌∷◌, [], IfOk, OnOk, Ok, Some};
ghost use Rattle.tsumego_problem.specs.Walk.{problem_within, history_limit};
ghost use Rattle.record_marks.specs.Asked.{IsAsked, IsChosen, IsCompleted, IsMarkedFor, IsRegion, marks_named, mover_marks, region_marks};
ghost use Rattle.record_marks.specs.Marked.{marked};
ghost use Rattle.record_marks.specs.Named.{values_named};

use crate::asked_node::default_node;
use crate::mark::{NoMark, mark_tree};
use crate::named_points::named_values;
use crate::region::{proposed_region, whole_chains};
use go_chains::ChainBoard;
use go_points::{Colour, PointSet, Size};
use sgf_text::{Bytes, Property, SgfNode, Tree, Values};
use std::alloc::{AllocError, Global};
use target_game::Problem;
use tool_parts::single;
use tsumego_problem::{ProblemFault, all_points, board_size, marks_node, read_problem};

/// Where both sides may play.
#[derive(Clone, Copy, Debug, PartialEq, Eq)]
pub enum Region<'a> {
    /// The region that is proposed for the targets.
    Proposed,
    /// The whole board.
    Board,
    /// Points and rectangles, separated by commas.
    Points(&'a [u8]),
}

/// What is asked for.
#[derive(Clone, Copy, Debug, PartialEq, Eq)]
pub struct Marks<'a> {
    /// The number of a node of the main line; by default that of `default_node`.
    pub node: Option<usize>,
    /// Points of the targets' chains, separated by commas.
    pub targets: &'a [u8],
    pub region: Region<'a>,
    /// Who is to move; by default as the record says.
    pub mover: Option<Colour>,
}

/// Why no record was made.
#[derive(Clone, Copy, Debug, PartialEq, Eq)]
pub enum Refusal {
    /// The main line has no such node.
    OffTheLine,
    /// The marks are not such as a record can hold.
    BadMarks,
    /// The text for the target is not a list of points.
    BadTarget,
    /// The text for the region is not a list of points.
    BadRegion,
    /// With the marks the record has no problem.
    NoProblem(ProblemFault),
    /// The region that is proposed has no point.
    EmptyRegion,
    /// The text for the points to be shut is not a list of points.
    BadShut,
    Memory,
}

impl From<AllocError> for Refusal {
    fn from(_: AllocError) -> Refusal {
        Refusal::Memory
    }
}

/// The record with its marks, the problem that was marked, and the number of the node of the main line that was named.
#[derive(Drop)]
pub struct MarkedRecord {
    pub tree: Tree,
    pub problem: Problem,
    pub place: usize,
}

/// The property of this name.
fn property(alloc: Global, name: &[u8], values: Vec<Bytes>) -> Result<Property, AllocError>
    ensures { IfOk result (λ p. (p.ident ≡ name.now) × (p.values ≡ values.items)) }
{
    Ok(Property {
        ident: Bytes::from_vec(name.to_vec(alloc)?),
        values: Values::from_vec(values),
    })
}

/// Appends PL, if the mover is asked for.
fn push_mover(
    alloc: Global,
    mover: Option<Colour>,
    into: &mut Vec<Property>,
) -> Result<(), AllocError>
    ensures { OnOk result (into.new.items ≡ into.old.items ++ mover_marks mover) }
{
    match mover {
        None => Ok(()),
        Some(Colour::Black) => push_property(single(alloc, b"PL", b"B")?, into),
        Some(Colour::White) => push_property(single(alloc, b"PL", b"W")?, into),
    }
}

/// The node of the marks as they are asked for.
fn asked_node(alloc: Global, size: Size, wanted: Marks<'_>) -> Result<SgfNode, Refusal>
    ensures { IfOk result (λ node. marks_named size wanted.entry ≡ Some node) }
{
    match SgfNode::new(asked_properties(alloc, size, wanted)?) {
        Some(node) => Ok(node),
        None => Err(Refusal::BadMarks),
    }
}

/// The properties of the marks as they are asked for.
fn asked_properties(alloc: Global, size: Size, wanted: Marks<'_>) -> Result<Vec<Property>, Refusal>
    ensures { IfOk result (λ properties. marks_named size wanted.entry ≡ Some properties.items) }
{
    let targets = named_property(alloc, size, b"TR", wanted.targets, Refusal::BadTarget)?;
    let squares = region_properties(alloc, size, wanted.region)?;
    Ok(joined_marks(alloc, wanted.mover, targets, squares)?)
}

/// PL, if the mover is asked for, then the targets, and then the region.
fn joined_marks(
    alloc: Global,
    mover: Option<Colour>,
    targets: Property,
    squares: Vec<Property>,
) -> Result<Vec<Property>, AllocError>
    ensures { IfOk result
        (λ all. all.items ≡ mover_marks mover ++ targets ∷ squares.items) }
{
    let mut squares = squares;
    let mut properties = Vec::new(alloc);
    push_mover(alloc, mover, &mut properties)?;
    push_property(targets, &mut properties)?;
    properties.append(&mut squares)?;
    Ok(properties)
}

/// SQ, if the region is asked for by its points.
fn region_properties(
    alloc: Global,
    size: Size,
    region: Region<'_>,
) -> Result<Vec<Property>, Refusal>
    ensures { IfOk result (λ squares. region_marks size region.entry ≡ Some squares.items) }
{
    match region {
        Region::Proposed => Ok(Vec::new(alloc)),
        Region::Board => Ok(Vec::new(alloc)),
        Region::Points(points) => {
            let named = named_property(alloc, size, b"SQ", points, Refusal::BadRegion)?;
            let mut squares = Vec::new(alloc);
            push_property(named, &mut squares)?;
            Ok(squares)
        }
    }
}

/// The property of this name with the points that the text names. If a name is none, it fails with this refusal.
fn named_property(
    alloc: Global,
    size: Size,
    name: &[u8],
    text: &[u8],
    refusal: Refusal,
) -> Result<Property, Refusal>
    ensures { IfOk result
        (λ p. (p.ident ≡ name.now) × (values_named size text.now ≡ Some p.values)) }
{
    match named_values(alloc, size, text)? {
        Some(values) => Ok(property(alloc, name, values)?),
        None => Err(refusal),
    }
}

fn push_property(property: Property, into: &mut Vec<Property>) -> Result<(), AllocError>
    ensures { OnOk result (into.new.items ≡ into.old.items ++ property ∷ []) }
{
    into.push(property)?;
    Ok(())
}

/// The tree with these marks.
pub(crate) fn with_marks(
    alloc: Global,
    tree: &Tree,
    place: usize,
    marks: &SgfNode,
) -> Result<Tree, Refusal>
    ensures { IfOk result (λ made. made ≡ marked place marks.now tree.now) }
{
    match mark_tree(alloc, tree, place, marks) {
        Ok(made) => Ok(made),
        Err(NoMark::OffTheLine) => Err(Refusal::OffTheLine),
        Err(NoMark::NoNode) => Err(Refusal::BadMarks),
        Err(NoMark::Memory) => Err(Refusal::Memory),
    }
}

/// The problem of the tree.
pub fn problem_of(alloc: Global, tree: &Tree) -> Result<Problem, Refusal>
    ensures { IfOk result (λ q. problem_within (Some history_limit) tree.now ≡ Ok q) }
{
    match read_problem(alloc, tree) {
        Ok(problem) => Ok(problem),
        Err(ProblemFault::Memory) => Err(Refusal::Memory),
        Err(fault) => Err(Refusal::NoProblem(fault)),
    }
}

/// The number of the node that is marked.
pub(crate) fn chosen_place(tree: &Tree, node: Option<usize>) -> usize
    ensures { IsChosen node result }
{
    match node {
        Some(place) => place,
        None => default_node(tree),
    }
}

/// The problem of the marks that are asked for at this node.
pub(crate) fn asked_problem(
    alloc: Global,
    tree: &Tree,
    place: usize,
    wanted: Marks<'_>,
) -> Result<Problem, Refusal>
    ensures { IfOk result (λ q. IsAsked place wanted.entry tree.now q) }
{
    let Some(size) = board_size(&tree.nodes()[0]) else {
        return Err(Refusal::NoProblem(ProblemFault::Size));
    };
    let asked = with_marks(alloc, tree, place, &asked_node(alloc, size, wanted)?)?;
    problem_of(alloc, &asked)
}

/// The problem with the targets' whole chains, and with the region that is asked for.
fn completed(alloc: Global, problem: &Problem, region: Region<'_>) -> Result<Problem, Refusal>
    ensures { IfOk result (λ made. IsCompleted region.entry problem.now made) }
{
    let Ok(board) = ChainBoard::from_colouring(problem.colouring()) else {
        return Err(Refusal::BadMarks);
    };
    let targets = whole_chains(&board, problem.targets());
    let points = region_of(&board, problem, &targets, region);
    let history = problem.history().to_vec(alloc)?;
    let place = problem.place();
    let mover = problem.mover();
    match Problem::new(history, place, mover, problem.passes(), targets, points) {
        Ok(made) => Ok(made),
        Err(_) => Err(Refusal::EmptyRegion),
    }
}

/// The region that is asked for.
fn region_of(
    board: &ChainBoard,
    problem: &Problem,
    targets: &PointSet,
    region: Region<'_>,
) -> PointSet
    ensures { IsRegion region.entry problem.now result }
{
    match region {
        Region::Proposed => proposed_region(board, problem.defender(), targets),
        Region::Board => all_points(problem.size()),
        Region::Points(_) => *problem.region(),
    }
}

/// The record with the marks that are asked for at a node of its main line, and no marks before it. Everything else stays as it is.
///
/// The targets are whole chains. The new record is read again: it has a problem.
pub fn marked_record(alloc: Global, tree: &Tree, wanted: Marks<'_>) -> Result<MarkedRecord, Refusal>
    ensures marked { IfOk result (λ r. IsMarkedFor wanted.entry r.place tree.now r.tree) }
    ensures place { IfOk result (λ r. IsChosen wanted.entry.node r.place) }
    ensures problem { IfOk result (λ r. problem_within (Some history_limit) r.tree ≡ Ok r.problem) }
{
    let place = chosen_place(tree, wanted.node);
    let asked = asked_problem(alloc, tree, place, wanted)?;
    let complete = completed(alloc, &asked, wanted.region)?;
    let marks = marks_node(alloc, &complete)?;
    let made = with_marks(alloc, tree, place, &marks)?;
    let problem = problem_of(alloc, &made)?;
    Ok(MarkedRecord {
        tree: made,
        problem,
        place,
    })
}
