//! What a page to click shows of a record, and which parts of it are audited.
//!
//! The record is a solution record, or one in which the first turns are judged: `TE` marks those by which their side wins,
//! `BM` those that are refuted, as `first_moves` writes them. In a solution record the tree is audited. In a judged one, each turn
//! that has a tree is audited: after a right turn the tree shows that its side wins the problem, and after a wrong one that the
//! other side wins the problem after it. Below a right turn the main line may have variations, and each that has a tree is audited
//! as well. What the audit refuses, such as a record for readers, is shown only where that is asked for, and is said not to be
//! audited.

ghost use Rattle.std.specs.Prelude.{◌≡◌, IfOk, IsSome, Ok, Some};
ghost use Rattle.solution_tree.specs.Audit.{audit};
ghost use Rattle.tsumego_problem.specs.Walk.{problem_node, problem_within, history_limit};
ghost use Rattle.record_pages.specs.Puzzle.{HasAuditedWinner};

use crate::lines::{Cut, Lines, shown_lines};
use crate::page::{NoPage, lines_below, marked_node, problem_of, winner_of};
use crate::variations::{begins_with_side, confirm_variations, without_variations};
use go_points::Colour;
use sgf_text::{SgfNode, Tree};
use std::alloc::{AllocError, Global};
use target_game::Problem;
use tool_parts::{copy_properties, copy_tree, push_nodes, push_trees};
use tsumego_problem::{locate, marks_node, past_nodes, values_at};

/// What is said of a turn.
#[derive(Clone, Copy, Debug, PartialEq, Eq)]
pub(crate) enum Worth {
    Wins,
    Loses,
    Unknown,
}

/// Who wins, and how that is known.
#[derive(Clone, Copy, Debug, PartialEq, Eq)]
pub(crate) enum Answer {
    /// This side wins according to the audit of the tree.
    Audited(Colour),
    /// This side wins, as the comment of the problem node says. The tree is not audited.
    Unaudited(Colour),
    /// The first turns are judged one by one.
    Judged,
}

/// What follows the problem by a first turn, that turn included; or all that follows it.
#[derive(Drop)]
pub(crate) struct Branch {
    pub(crate) lines: Lines,
    /// Whether an audit has shown what is said of the turn or of the problem, or nothing is said that could be audited.
    pub(crate) is_audited: bool,
}

/// A problem with what follows it.
#[derive(Drop)]
pub(crate) struct Puzzle {
    pub(crate) problem: Problem,
    pub(crate) answer: Answer,
    pub(crate) branches: Vec<Branch>,
}

/// What the node says of its turn, if it says anything.
pub(crate) fn worth_of(node: &SgfNode) -> Option<Worth> {
    if !values_at(b"TE", node).is_empty() {
        return Some(Worth::Wins);
    }
    if !values_at(b"BM", node).is_empty() {
        return Some(Worth::Loses);
    }
    match values_at(b"C", node).first() {
        Some(text) if text.as_slice() == b"unknown".as_slice() => Some(Worth::Unknown),
        _ => None,
    }
}

/// What the first node of the tree says.
fn worth_of_tree(tree: &Tree) -> Option<Worth> {
    worth_of(tree.nodes().first()?)
}

/// Whether something is said of one of the turns.
fn are_judged(branches: &[Tree]) -> bool {
    for branch in branches {
        if worth_of_tree(branch).is_some() {
            return true;
        }
    }
    false
}

/// The trees of the first turns below the problem node.
fn branches(alloc: Global, record: &Tree) -> Result<Vec<Tree>, NoPage> {
    let mut found = Vec::new(alloc);
    let Some(mark) = locate(record) else {
        return Ok(found);
    };
    if mark.nodes.is_empty() {
        push_trees(alloc, mark.children, &mut found)?;
        return Ok(found);
    }
    let mut nodes = Vec::new(alloc);
    push_nodes(alloc, mark.nodes, &mut nodes)?;
    let mut children = Vec::new(alloc);
    push_trees(alloc, mark.children, &mut children)?;
    push_tree(tree_with(nodes, children)?, &mut found)?;
    Ok(found)
}

fn push_tree(tree: Tree, into: &mut Vec<Tree>) -> Result<(), AllocError> {
    into.push(tree)?;
    Ok(())
}

fn push_node(node: SgfNode, into: &mut Vec<SgfNode>) -> Result<(), AllocError> {
    into.push(node)?;
    Ok(())
}

fn push_branch(lines: Lines, is_audited: bool, into: &mut Vec<Branch>) -> Result<(), AllocError> {
    into.push(Branch { lines, is_audited })?;
    Ok(())
}

fn tree_with(nodes: Vec<SgfNode>, children: Vec<Tree>) -> Result<Tree, NoPage> {
    match Tree::new(nodes, children) {
        Some(tree) => Ok(tree),
        None => Err(NoPage::NotThePage),
    }
}

/// The record of the problem that has this branch alone below it.
fn with_branch(alloc: Global, problem: &Problem, branch: &Tree) -> Result<Tree, NoPage> {
    let mut nodes = past_nodes(alloc, problem)?;
    push_node(marks_node(alloc, problem)?, &mut nodes)?;
    let mut children = Vec::new(alloc);
    push_tree(copy_tree(alloc, branch)?, &mut children)?;
    tree_with(nodes, children)
}

/// The targets and the region of the problem, without who is to move.
fn marks_alone(alloc: Global, problem: &Problem) -> Result<SgfNode, NoPage> {
    let marks = marks_node(alloc, problem)?;
    let mut properties = copy_properties(alloc, marks.as_slice())?;
    properties.retain(|property| property.ident.as_slice() != b"PL".as_slice());
    match SgfNode::new(properties) {
        Some(node) => Ok(node),
        None => Err(NoPage::NotThePage),
    }
}

/// The record of the problem after these turns, with what follows them.
pub(crate) fn after_turns(
    alloc: Global,
    problem: &Problem,
    turns: &[SgfNode],
    next: &[SgfNode],
    below: &[Tree],
) -> Result<Tree, NoPage> {
    let mut nodes = past_nodes(alloc, problem)?;
    push_nodes(alloc, turns, &mut nodes)?;
    push_node(marks_alone(alloc, problem)?, &mut nodes)?;
    push_nodes(alloc, next, &mut nodes)?;
    let mut children = Vec::new(alloc);
    push_trees(alloc, below, &mut children)?;
    tree_with(nodes, children)
}

/// The record of the problem after the branch's first turn, with what follows the turn below it.
fn after_branch(alloc: Global, problem: &Problem, branch: &Tree) -> Result<Tree, NoPage> {
    let nodes = branch.nodes();
    if nodes.is_empty() {
        return Err(NoPage::NotThePage);
    }
    after_turns(alloc, problem, &nodes[..1], &nodes[1..], branch.children())
}

/// Who wins the problem of the record according to its tree.
pub(crate) fn audited(alloc: Global, tree: &Tree) -> Result<Colour, NoPage>
    ensures { IfOk result
        (λ x. (q : _) × (problem_within (Some history_limit) tree.now ≡ Ok q)
        × (audit q tree.now ≡ Ok x)) }
{
    let problem = problem_of(alloc, tree)?;
    winner_of(alloc, &problem, tree)
}

/// Whether nothing follows the branch's first turn.
fn is_turn_alone(branch: &Tree) -> bool {
    branch.nodes().len() < 2 && branch.children().is_empty()
}

/// Checks that what is below a judged turn shows what is said of it. If nothing is there, nothing is checked.
fn confirm_branch(alloc: Global, problem: &Problem, branch: &Tree) -> Result<(), NoPage> {
    if is_turn_alone(branch) {
        return Ok(());
    }
    let (record, winner) = match worth_of_tree(branch) {
        Some(Worth::Wins) => {
            confirm_variations(alloc, problem, branch)?;
            let plain = without_variations(alloc, problem, branch)?;
            (with_branch(alloc, problem, &plain)?, problem.mover())
        }
        Some(Worth::Loses) => (
            after_branch(alloc, problem, branch)?,
            problem.mover().opponent(),
        ),
        _ => return Ok(()),
    };
    match audited(alloc, &record) {
        Ok(found) if found == winner => Ok(()),
        Err(NoPage::Memory) => Err(NoPage::Memory),
        _ => Err(NoPage::WrongTurn),
    }
}

/// Whether what is below a judged turn shows what is said of it. If it shows something else, that is a refusal, unless it may be
/// shown all the same; then a turn with nothing below it is not shown to be right or wrong either.
fn is_confirmed(
    alloc: Global,
    problem: &Problem,
    branch: &Tree,
    shows_unaudited: bool,
) -> Result<bool, NoPage> {
    if shows_unaudited && is_turn_alone(branch) {
        return Ok(!matches!(
            worth_of_tree(branch),
            Some(Worth::Wins) | Some(Worth::Loses)
        ));
    }
    match confirm_branch(alloc, problem, branch) {
        Ok(()) => Ok(true),
        Err(NoPage::WrongTurn) if shows_unaudited => Ok(false),
        Err(refusal) => Err(refusal),
    }
}

/// The branches of the first turns.
fn judged_branches(
    alloc: Global,
    problem: &Problem,
    branches: &[Tree],
    cut: Cut,
    shows_unaudited: bool,
) -> Result<Vec<Branch>, NoPage> {
    let mut shown = Vec::new(alloc);
    for branch in branches {
        if begins_with_side(problem.size(), problem.mover(), branch) {
            let is_audited = is_confirmed(alloc, problem, branch, shows_unaudited)?;
            let side = Some(problem.mover());
            let lines = shown_lines(alloc, problem.size(), side, branch, 0, 0, cut)?;
            push_branch(lines, is_audited, &mut shown)?;
        }
    }
    Ok(shown)
}

/// The text up to its first line end.
fn first_line(text: &[u8]) -> &[u8] {
    for at in 0..text.len() {
        if matches!(text[at], b'\n' | b'\r') {
            return &text[..at];
        }
    }
    text
}

/// Who wins, as the first line of the problem node's comment says.
fn named_winner(record: &Tree) -> Option<Colour> {
    let comment = values_at(b"C", marked_node(record)?).first()?;
    match first_line(comment.as_slice()) {
        b"Black wins" => Some(Colour::Black),
        b"White wins" => Some(Colour::White),
        _ => None,
    }
}

/// Who wins the problem of the record. If the audit refuses the tree, that is a refusal, unless the tree may be shown all the same.
fn answer_of(
    alloc: Global,
    problem: &Problem,
    tree: &Tree,
    shows_unaudited: bool,
) -> Result<Answer, NoPage>
    requires { IsSome (problem_node tree.now) }
    ensures { IfOk result (HasAuditedWinner problem.now tree.now) }
{
    match winner_of(alloc, problem, tree) {
        Ok(winner) => Ok(Answer::Audited(winner)),
        Err(NoPage::NoAnswer(_)) if shows_unaudited => match named_winner(tree) {
            Some(winner) => Ok(Answer::Unaudited(winner)),
            None => Err(NoPage::NoWinner),
        },
        Err(refusal) => Err(refusal),
    }
}

/// What a page to click shows of the record, with its lines cut as `cut` says. What the audit refuses is refused, unless
/// `shows_unaudited`.
pub(crate) fn puzzle_of(
    alloc: Global,
    tree: &Tree,
    cut: Cut,
    shows_unaudited: bool,
) -> Result<Puzzle, NoPage>
    ensures problem { IfOk result
        (λ p. problem_within (Some history_limit) tree.now ≡ Ok p.problem) }
    ensures winner { IfOk result (λ p. HasAuditedWinner p.problem tree.now p.answer) }
{
    let problem = problem_of(alloc, tree)?;
    let first = branches(alloc, tree)?;
    if are_judged(first.as_slice()) {
        let branches = judged_branches(alloc, &problem, first.as_slice(), cut, shows_unaudited)?;
        return Ok(Puzzle {
            problem,
            answer: Answer::Judged,
            branches,
        });
    }
    let answer = answer_of(alloc, &problem, tree, shows_unaudited)?;
    let lines = lines_below(alloc, problem.size(), tree, cut)?;
    let mut branches = Vec::new(alloc);
    push_branch(lines, matches!(answer, Answer::Audited(_)), &mut branches)?;
    Ok(Puzzle {
        problem,
        answer,
        branches,
    })
}
