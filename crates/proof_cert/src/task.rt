//! What a certificate still has to give, line by line.

ghost use Rattle.std.specs.Prelude.{◌≡◌, ◌∷◌, ◌++◌, [], ℕ, IfOk, IfSome, IfNone, Some, map, option_map};
ghost use Rattle.proof_cert.specs.Lines.{node_lines, branch_lines, lemma_lines, had_spelled};
ghost use Rattle.proof_cert.specs.Private.Body.{body_value};
ghost use Rattle.proof_cert.specs.Stage.{line_value, version_number};
ghost use Rattle.proof_cert.specs.Certificate.{node_of, replies_of, lemma_of};
ghost use Rattle.proof_cert.specs.Held.{spelled_line, reply_lines, task_lines, lines_left};

use crate::body_line::BodyLine;
use crate::certificate::{Lemma, Node};
use crate::line::Line;
use crate::spelled::{is_spelled_body_line, is_spelled_line, is_spelled_number};
use crate::version::Version;
use go_points::{Colouring, Size, Turn};
use std::alloc::AllocError;

/// A part of a certificate.
#[derive(Clone, Copy)]
pub(crate) enum Task<'a> {
    Lemmas(Version, &'a [Lemma]),
    Had(Version, &'a [Colouring]),
    Listed(&'a [Colouring]),
    Main(&'a Node),
    Tree(&'a Node),
    Replies(&'a [(Turn, Node)]),
    End,
}

/// The line, if it has a spelling.
fn if_spelled(size: Size, line: Line) -> Option<Line>
    ensures { option_map (line_value size) result
        ≡ spelled_line size (Some (line_value size line)) }
{
    if is_spelled_line(size, &line) {
        Some(line)
    } else {
        None
    }
}

/// The line of a body, if it has a spelling.
fn if_body_spelled(size: Size, line: BodyLine) -> Option<BodyLine>
    ensures { option_map (body_value size) result
        ≡ spelled_line size (Some (body_value size line)) }
{
    if is_spelled_body_line(size, &line) {
        Some(line)
    } else {
        None
    }
}

/// The same line, if it has a spelling, as one of a claim.
fn whole(line: Option<BodyLine>) -> Option<Line>
    ensures { (n : ℕ) → option_map (line_value n) result ≡ option_map (body_value n) line }
{
    match line {
        Some(line) => Some(line.line()),
        None => None,
    }
}

/// The line of a colouring that must have occurred, if it has a spelling in a claim of this version.
fn had_line(version: Version, size: Size, colouring: &Colouring) -> Option<Line>
    ensures { option_map (line_value size) result
        ≡ spelled_line size (had_spelled (version_number version) colouring.now) }
{
    match version {
        Version::One => None,
        Version::Two => if_spelled(size, Line::Had(*colouring)),
    }
}

/// The first line of the tree; the rest becomes a task.
#[tactic(auto, using(crate::proofs::Certificates::node_of_won, crate::proofs::Certificates::node_of_use, crate::proofs::Certificates::node_of_play, crate::proofs::Certificates::node_of_all, crate::proofs::Certificates::replies_counted, crate::proofs::Tasks::left_pushed))]
pub(crate) fn open_node<'a>(
    size: Size,
    node: &'a Node,
    tasks: &mut Vec<Task<'a>>,
) -> Result<Option<BodyLine>, AllocError>
    ensures { IfOk result
        (λ line. map (spelled_line size)
        (node_lines (node_of size node.now) ++ lines_left size tasks.old.items)
        ≡ option_map (body_value size) line
        ∷ map (spelled_line size) (lines_left size tasks.new.items)) }
{
    match node {
        Node::Won => Ok(if_body_spelled(size, BodyLine::Won)),
        Node::Use(lemma) => Ok(if_body_spelled(size, BodyLine::Use(*lemma))),
        Node::Play(turn, below) => {
            tasks.push(Task::Tree(below))?;
            Ok(if_body_spelled(size, BodyLine::Play(*turn)))
        }
        Node::All(replies) => {
            tasks.push(Task::Replies(replies.as_slice()))?;
            if is_spelled_number(replies.len()) {
                Ok(Some(BodyLine::All(replies.len() as u32)))
            } else {
                Ok(None)
            }
        }
    }
}

/// The first line of the lemma; the rest becomes tasks.
#[tactic(auto, using(crate::proofs::Tasks::left_pushed, crate::proofs::Tasks::lemma_left))]
fn open_lemma<'a>(
    version: Version,
    size: Size,
    lemma: &'a Lemma,
    tasks: &mut Vec<Task<'a>>,
) -> Result<Option<Line>, AllocError>
    ensures { IfOk result
        (λ line. map (spelled_line size)
        (lemma_lines (version_number version) (lemma_of size lemma.now)
        ++ lines_left size tasks.old.items) ≡ option_map (line_value size) line
        ∷ map (spelled_line size) (lines_left size tasks.new.items)) }
{
    tasks.push(Task::End)?;
    tasks.push(Task::Tree(&lemma.body))?;
    tasks.push(Task::Listed(lemma.absent.as_slice()))?;
    tasks.push(Task::Had(version, lemma.had.as_slice()))?;
    Ok(if_spelled(
        size,
        Line::Lemma {
            mover: lemma.mover,
            passes: lemma.passes,
            root: lemma.root,
        },
    ))
}

/// The line of the reply; the tree below it becomes a task.
#[tactic(auto, using(crate::proofs::Tasks::left_pushed))]
fn open_reply<'a>(
    size: Size,
    reply: &'a (Turn, Node),
    tasks: &mut Vec<Task<'a>>,
) -> Result<Option<BodyLine>, AllocError>
    ensures { IfOk result
        (λ line. map (spelled_line size)
        (reply_lines size reply.now ++ lines_left size tasks.old.items)
        ≡ option_map (body_value size) line
        ∷ map (spelled_line size) (lines_left size tasks.new.items)) }
{
    tasks.push(Task::Tree(&reply.1))?;
    Ok(if_body_spelled(size, BodyLine::Reply(reply.0)))
}

/// The line of the first reply, if there is one; the rest becomes tasks.
#[tactic(auto, using(crate::proofs::Tasks::left_pushed, crate::proofs::Tasks::reply_first, crate::proofs::Tasks::replies_none))]
pub(crate) fn open_replies<'a>(
    size: Size,
    replies: &'a [(Turn, Node)],
    tasks: &mut Vec<Task<'a>>,
) -> Result<Option<Option<BodyLine>>, AllocError>
    ensures none { IfOk result
        (λ first. IfNone first ((branch_lines (replies_of size replies.now) ≡ [])
        × (tasks.new.items ≡ tasks.old.items))) }
    ensures first { IfOk result
        (λ first. IfSome first
        (λ line. map (spelled_line size)
        (branch_lines (replies_of size replies.now) ++ lines_left size tasks.old.items)
        ≡ option_map (body_value size) line
        ∷ map (spelled_line size) (lines_left size tasks.new.items))) }
{
    let Some((reply, others)) = replies.split_first() else {
        return Ok(None);
    };
    tasks.push(Task::Replies(others))?;
    Ok(Some(open_reply(size, reply, tasks)?))
}

/// The first line of the task, if it has one; the rest becomes tasks.
#[tactic(auto, using(crate::proofs::Tasks::left_pushed, crate::proofs::Tasks::lemmas_first, crate::proofs::Tasks::had_first, crate::proofs::Tasks::listed_first, crate::proofs::Tasks::lemmas_none, crate::proofs::Tasks::had_none, crate::proofs::Tasks::listed_none))]
pub(crate) fn open<'a>(
    size: Size,
    task: Task<'a>,
    tasks: &mut Vec<Task<'a>>,
) -> Result<Option<Option<Line>>, AllocError>
    ensures none { IfOk result
        (λ first. IfNone first ((task_lines size task.entry ≡ [])
        × (tasks.new.items ≡ tasks.old.items))) }
    ensures first { IfOk result
        (λ first. IfSome first
        (λ line. map (spelled_line size)
        (task_lines size task.entry ++ lines_left size tasks.old.items)
        ≡ option_map (line_value size) line
        ∷ map (spelled_line size) (lines_left size tasks.new.items))) }
{
    match task {
        Task::Lemmas(version, lemmas) => {
            let Some((lemma, others)) = lemmas.split_first() else {
                return Ok(None);
            };
            tasks.push(Task::Lemmas(version, others))?;
            Ok(Some(open_lemma(version, size, lemma, tasks)?))
        }
        Task::Had(version, had) => {
            let Some((colouring, others)) = had.split_first() else {
                return Ok(None);
            };
            tasks.push(Task::Had(version, others))?;
            Ok(Some(had_line(version, size, colouring)))
        }
        Task::Listed(listed) => {
            let Some((colouring, others)) = listed.split_first() else {
                return Ok(None);
            };
            tasks.push(Task::Listed(others))?;
            Ok(Some(if_spelled(size, Line::Not(*colouring))))
        }
        Task::Main(tree) => {
            tasks.push(Task::Tree(tree))?;
            Ok(Some(Some(Line::Main)))
        }
        Task::Tree(tree) => Ok(Some(whole(open_node(size, tree, tasks)?))),
        Task::Replies(replies) => match open_replies(size, replies, tasks)? {
            Some(line) => Ok(Some(whole(line))),
            None => Ok(None),
        },
        Task::End => Ok(Some(Some(Line::End))),
    }
}
