//! A reader's copy of a solution record.

ghost use Rattle.std.specs.Prelude.{◌≡◌, ◌⊎◌, ◌++◌, ◌∷◌, [], List, IfOk, OnOk, IsSome, IsTrue, Ok, Some};
ghost use Rattle.sgf_text.specs.Trees.{Node};
ghost use Rattle.tsumego_problem.specs.Walk.{problem_node, problem_within, history_limit};
ghost use Rattle.solution_tree.specs.Audit.{audit};
ghost use Rattle.record_pages.specs.Bare.{IsBare};
ghost use Rattle.record_pages.specs.Page.{HasNamedWinner, IsPage, NamesWinner};
ghost use Rattle.tool_parts.specs.Says.{winner_text};

use crate::bare::without_past;
use crate::lines::{Cut, Lines, shown_lines};
use crate::returning::may_return;
use crate::same::are_same;
use crate::titles::{
    add_comment, add_paragraph, push_comment, push_labels, push_titles, write_comment,
};
use go_points::{Colour, Size};
use sgf_text::{Property, SgfNode, Tree};
use solution_tree::{AuditFault, AuditWhy, audit};
use std::alloc::{AllocError, Global};
use target_game::Problem;
use tool_parts::copy_properties;
use tsumego_problem::{ProblemFault, first_marked, marks_node, past_nodes, read_problem};

/// Why no page was made.
#[derive(Clone, Copy, Debug, PartialEq, Eq)]
pub enum NoPage {
    /// The record has no problem.
    NoProblem(ProblemFault),
    /// The tree below the problem is no proof.
    NoAnswer(AuditFault),
    /// The tree below the problem is no proof, and its problem node does not say who wins.
    NoWinner,
    /// The second record has another problem, or none.
    OtherProblem,
    /// What is below a first turn does not show what is said of that turn.
    WrongTurn,
    /// The page that was made is not that of the problem.
    NotThePage,
    Memory,
}

impl From<AllocError> for NoPage {
    fn from(_: AllocError) -> NoPage {
        NoPage::Memory
    }
}

/// A page, the problem of the answer, the problem that is shown, who wins both, and whether nothing of the tree is left out.
#[derive(Drop)]
pub struct Page {
    pub tree: Tree,
    pub problem: Problem,
    pub shown: Problem,
    pub winner: Colour,
    pub is_whole: bool,
}

/// The problem of the tree.
pub(crate) fn problem_of(alloc: Global, tree: &Tree) -> Result<Problem, NoPage>
    ensures problem { IfOk result (λ q. problem_within (Some history_limit) tree.now ≡ Ok q) }
    ensures node { IfOk result (λ q. IsSome (problem_node tree.now)) }
{
    match read_problem(alloc, tree) {
        Ok(problem) => Ok(problem),
        Err(ProblemFault::Memory) => Err(NoPage::Memory),
        Err(fault) => Err(NoPage::NoProblem(fault)),
    }
}

/// Who wins according to the tree.
pub(crate) fn winner_of(alloc: Global, problem: &Problem, tree: &Tree) -> Result<Colour, NoPage>
    requires { IsSome (problem_node tree.now) }
    ensures { IfOk result (λ x. audit problem.now tree.now ≡ Ok x) }
{
    match audit(alloc, problem, tree) {
        Ok(winner) => Ok(winner),
        Err(fault) => match fault.why {
            AuditWhy::Memory => Err(NoPage::Memory),
            _ => Err(NoPage::NoAnswer(fault)),
        },
    }
}

/// What a page shows of the lines below the problem node, which is on the main line.
pub(crate) fn lines_below(
    alloc: Global,
    size: Size,
    tree: &Tree,
    cut: Cut,
) -> Result<Lines, AllocError> {
    let mut part = tree;
    loop {
        if let Some(at) = first_marked(part.nodes()) {
            return shown_lines(alloc, size, None, part, at + 1, 0, cut);
        }
        let Some(child) = part.children().first() else {
            return shown_lines(alloc, size, None, part, part.nodes().len(), 0, cut);
        };
        part = child;
    }
}

/// The problem node of the main line.
pub(crate) fn marked_node<'a>(tree: &'a Tree) -> Option<&'a SgfNode> {
    let mut part = tree;
    loop {
        let nodes = part.nodes();
        if let Some(at) = first_marked(nodes) {
            return Some(&nodes[at]);
        }
        let Some(child) = part.children().first() else {
            return None;
        };
        part = child;
    }
}

/// What a page says of the winner.
fn verdict(winner: Colour) -> &'static [u8]
    ensures { result.now ≡ winner_text winner }
{
    match winner {
        Colour::Black => b"Black wins",
        Colour::White => b"White wins",
    }
}

/// Appends the node of these properties.
fn push_node(properties: Vec<Property>, into: &mut Vec<SgfNode>) -> Result<(), NoPage>
    ensures { OnOk result (into.new.items ≡ into.old.items ++ properties.items ∷ []) }
{
    let Some(node) = SgfNode::new(properties) else {
        return Err(NoPage::NotThePage);
    };
    match into.push(node) {
        Ok(()) => Ok(()),
        Err(_) => Err(NoPage::Memory),
    }
}

/// The root with the titles of the other record and, unless it is also the problem node, the comment of that record's root.
fn titled_root(
    alloc: Global,
    root: &SgfNode,
    original: Option<&Tree>,
    is_joined: bool,
) -> Result<Vec<Property>, NoPage> {
    let mut properties = copy_properties(alloc, root.as_slice())?;
    if let Some(other) = original {
        let first = &other.nodes()[0];
        push_titles(alloc, first, &mut properties)?;
        if !is_joined && first_marked(other.nodes()) != Some(0) {
            let mut text = Vec::new(alloc);
            add_comment(first, &mut text)?;
            push_comment(alloc, text.as_slice(), &mut properties)?;
        }
    }
    Ok(properties)
}

/// Appends the marks of the problem, the labels of the other record, its comments, and who wins.
fn push_marks(
    alloc: Global,
    problem: &Problem,
    winner: Colour,
    original: Option<&Tree>,
    is_joined: bool,
    into: &mut Vec<Property>,
) -> Result<(), NoPage>
    ensures { OnOk result (NamesWinner winner into.new.items) }
{
    let marks = marks_node(alloc, problem)?;
    let mut some = copy_properties(alloc, marks.as_slice())?;
    into.append(&mut some)?;
    let mut text = Vec::new(alloc);
    if let Some(other) = original {
        if is_joined && first_marked(other.nodes()) != Some(0) {
            add_comment(&other.nodes()[0], &mut text)?;
        }
        if let Some(node) = marked_node(other) {
            push_labels(alloc, node, into)?;
            add_comment(node, &mut text)?;
        }
    }
    add_paragraph(verdict(winner), &mut text)?;
    write_comment(alloc, text.as_slice(), into)?;
    Ok(())
}

/// The nodes up to the problem node, which is the root if the problem has no past.
fn front_nodes(
    alloc: Global,
    problem: &Problem,
    winner: Colour,
    original: Option<&Tree>,
) -> Result<Vec<SgfNode>, NoPage>
    ensures { IfOk result (λ nodes. (before : List Node) × (node : Node)
        × (nodes.items ≡ before ++ node ∷ []) × NamesWinner winner node) }
{
    let past = past_nodes(alloc, problem)?;
    let is_joined = past.len() <= 1;
    let mut nodes = Vec::new(alloc);
    let mut open = Vec::new(alloc);
    for i in 0..past.len() {
        let properties = if i == 0 {
            titled_root(alloc, &past[i], original, is_joined)?
        } else {
            copy_properties(alloc, past[i].as_slice())?
        };
        if is_joined {
            open = properties;
        } else {
            push_node(properties, &mut nodes)?;
        }
    }
    push_marks(alloc, problem, winner, original, is_joined, &mut open)?;
    push_node(open, &mut nodes)?;
    Ok(nodes)
}

/// The tree of the page.
fn page_tree(
    alloc: Global,
    problem: &Problem,
    winner: Colour,
    original: Option<&Tree>,
    lines: Lines,
) -> Result<Tree, NoPage>
    ensures { IfOk result (HasNamedWinner winner) }
{
    let mut nodes = front_nodes(alloc, problem, winner, original)?;
    let mut below = lines.nodes;
    nodes.append(&mut below)?;
    match Tree::new(nodes, lines.children) {
        Some(tree) => Ok(tree),
        None => Err(NoPage::NotThePage),
    }
}

/// The page of a solution record: its problem, in the root if it has no past; who wins, according to an audit of the record; and
/// below it the tree, with the lines that resist longest first, some of which may be left out. Titles and comments are those of
/// another record with the same problem.
///
/// If no earlier position can come back, the page begins at the problem, and the game before it is left out, unless it is to be
/// kept. The page is read again: it has the problem that is shown, and if nothing is left out, the audit gives the same answer for
/// it.
pub fn page_of(
    alloc: Global,
    answer: &Tree,
    original: Option<&Tree>,
    cut: Cut,
    keeps_past: bool,
) -> Result<Page, NoPage>
    ensures { IfOk result
        (λ p. IsPage answer.now p.tree p.problem p.shown p.winner p.is_whole) }
{
    let problem = problem_of(alloc, answer)?;
    let winner = winner_of(alloc, &problem, answer)?;
    if !is_of_problem(alloc, &problem, original)? {
        return Err(NoPage::OtherProblem);
    }
    let lines = lines_below(alloc, problem.size(), answer, cut)?;
    let is_whole = lines.is_whole;
    let shown = shown_problem(alloc, &problem, winner, answer, keeps_past)?;
    let tree = page_tree(alloc, &shown, winner, original, lines)?;
    confirm(alloc, &shown, winner, is_whole, &tree)?;
    Ok(Page {
        tree,
        problem,
        shown,
        winner,
        is_whole,
    })
}

/// The problem that a page shows. The game before it is left out if play cannot bring back a position of that game and the tree
/// still shows the same.
fn shown_problem(
    alloc: Global,
    problem: &Problem,
    winner: Colour,
    answer: &Tree,
    keeps_past: bool,
) -> Result<Problem, NoPage>
    ensures { IfOk result (λ shown. (shown ≡ problem.now) ⊎ IsBare problem.now shown) }
{
    if !keeps_past && problem.history().len() > 1 && may_return(alloc, problem)?.is_empty() {
        if let Some(bare) = without_past(alloc, problem)? {
            if is_won_alone(alloc, &bare, winner, answer)? {
                return Ok(bare);
            }
        }
    }
    Ok(problem.copy(alloc)?)
}

/// Whether this side wins the problem according to the tree of an answer to another problem.
fn is_won_alone(
    alloc: Global,
    problem: &Problem,
    winner: Colour,
    answer: &Tree,
) -> Result<bool, NoPage> {
    let lines = lines_below(alloc, problem.size(), answer, Cut::nothing())?;
    let tree = page_tree(alloc, problem, winner, None, lines)?;
    match confirm(alloc, problem, winner, true, &tree) {
        Ok(()) => Ok(true),
        Err(NoPage::Memory) => Err(NoPage::Memory),
        Err(_) => Ok(false),
    }
}

/// Whether the record, if there is one, has this problem.
pub(crate) fn is_of_problem(
    alloc: Global,
    problem: &Problem,
    original: Option<&Tree>,
) -> Result<bool, NoPage> {
    let Some(tree) = original else {
        return Ok(true);
    };
    match read_problem(alloc, tree) {
        Ok(other) => Ok(are_same(problem, &other)),
        Err(ProblemFault::Memory) => Err(NoPage::Memory),
        Err(_) => Ok(false),
    }
}

/// Checks that the tree has this problem and, if it is whole, that the audit names this winner.
fn confirm(
    alloc: Global,
    problem: &Problem,
    winner: Colour,
    is_whole: bool,
    tree: &Tree,
) -> Result<(), NoPage>
    ensures problem { OnOk result (problem_within (Some history_limit) tree.now ≡ Ok problem.now) }
    ensures whole { OnOk result (IsTrue is_whole → audit problem.now tree.now ≡ Ok winner) }
{
    let read = problem_of(alloc, tree)?;
    if !are_same(problem, &read) {
        return Err(NoPage::NotThePage);
    }
    if !is_whole {
        return Ok(());
    }
    if winner_of(alloc, problem, tree)? != winner {
        return Err(NoPage::NotThePage);
    }
    Ok(())
}
