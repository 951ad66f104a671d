//! The lines of a certificate held in memory, one at a time.

ghost use Rattle.std.specs.Prelude.{◌≡◌, ◌+◌, ◌-◌, ◌^◌, ◌<◌, ◌∷◌, [], None, Some, Err, IfOk, IfSome, IfNone, map, option_map};
ghost use Rattle.proof_cert.specs.Lines.{lines_of};
ghost use Rattle.proof_cert.specs.Stage.{line_value};
ghost use Rattle.proof_cert.specs.Certificate.{claim_of};
ghost use Rattle.proof_cert.specs.Held.{spelled_line, lines_left, held_gives, held_source_of};
ghost use Rattle.proof_cert.specs.Given.{fault_of, lines_counted};
ghost use Rattle.proof_cert.specs.Private.Body.{body_value};
ghost use Rattle.proof_cert.specs.Private.Source.{answer_value};

use crate::body_line::BodyLine;
use crate::certificate::Certificate;
use crate::line::Line;
use crate::node_source::NodeSource;
use crate::source::SourceFault;
use crate::task::{Task, open, open_node, open_replies};
use go_points::Size;
use std::alloc::{AllocError, Global};
use std::marker::Model;

/// The most lines that a source gives.
const MOST_LINES: u64 = 18_446_744_073_709_551_614;

/// The lines of a certificate's text.
///
/// A certificate without a spelling gives `Malformed` at its first line that has none. What is still to be given is kept in memory,
/// one part for each open reply and tree.
#[derive(Drop)]
pub struct HeldSource<'a> {
    certificate: &'a Certificate,
    tasks: Vec<Task<'a>>,
    has_begun: bool,
    number: u64,
    fault: Option<SourceFault>,
}

impl<'a> Model for HeldSource<'a> {
    ghost use Rattle.std.specs.Prelude.{◌≡◌, ◌<◌, ◌-◌, ◌^◌, None, false, [], map, if◌then◌else◌};
    ghost use Rattle.proof_cert.specs.Lines.{lines_of};
    ghost use Rattle.proof_cert.specs.Certificate.{claim_of};
    ghost use Rattle.proof_cert.specs.Held.{Held, spelled_line, lines_left};

    ghost Value = { Held };

    ghost view = { λ a. record {
      size = a.certificate.now.size;
      left = map (spelled_line a.certificate.now.size)
          (if a.has_begun then lines_left a.certificate.now.size a.tasks.items else lines_of
          (claim_of a.certificate.now));
      number = a.number;
      fault = a.fault;
    } };

    ghost invariant = { λ a. (a.fault ≡ None → a.number < 2 ^ 64 - 1)
        × (a.has_begun ≡ false → a.tasks.items ≡ []) };
}

/// The first line of the claim; the rest becomes tasks.
#[tactic(auto, using(crate::proofs::Tasks::left_pushed, crate::proofs::Tasks::lemma_left))]
fn begin<'a>(certificate: &'a Certificate, tasks: &mut Vec<Task<'a>>) -> Result<Line, AllocError>
    requires { tasks.old.items ≡ [] }
    ensures { IfOk result
        (λ line. map (spelled_line certificate.now.size) (lines_of (claim_of certificate.now))
        ≡ Some (line_value certificate.now.size line)
        ∷ map (spelled_line certificate.now.size)
        (lines_left certificate.now.size tasks.new.items)) }
{
    let rows = certificate.size.rows();
    tasks.push(Task::End)?;
    tasks.push(Task::Main(&certificate.main))?;
    tasks.push(Task::Lemmas(certificate.version, certificate.lemmas.as_slice()))?;
    Ok(Line::Header {
        version: certificate.version,
        size: u32::from(rows),
        winner: certificate.winner,
    })
}

/// The next line of the tasks, which may have no spelling. `None` if no line is left.
#[tactic(auto, using(crate::proofs::Tasks::left_pushed))]
fn next_line<'a>(size: Size, tasks: &mut Vec<Task<'a>>) -> Result<Option<Option<Line>>, AllocError>
    ensures none { IfOk result (λ next. IfNone next (lines_left size tasks.old.items ≡ [])) }
    ensures rest { IfOk result (λ next. IfNone next (lines_left size tasks.new.items ≡ [])) }
    ensures line { IfOk result
        (λ next. IfSome next (λ line. map (spelled_line size) (lines_left size tasks.old.items)
        ≡ option_map (line_value size) line
        ∷ map (spelled_line size) (lines_left size tasks.new.items))) }
{
    while let Some(task) = tasks.pop() {
        let line = open(size, task, tasks)?;
        if line.is_some() {
            return Ok(line);
        }
    }
    Ok(None)
}

/// The next line of the tasks, if it is one of a body, or none if it has no spelling. `None` if it is another one; it is left then.
#[tactic(auto, using(crate::proofs::Tasks::left_pushed))]
fn next_body_line<'a>(
    size: Size,
    tasks: &mut Vec<Task<'a>>,
) -> Result<Option<Option<BodyLine>>, AllocError>
    ensures none { IfOk result
        (λ next. IfNone next
        (lines_left size tasks.new.items ≡ lines_left size tasks.old.items)) }
    ensures line { IfOk result
        (λ next. IfSome next (λ line. map (spelled_line size) (lines_left size tasks.old.items)
        ≡ option_map (body_value size) line
        ∷ map (spelled_line size) (lines_left size tasks.new.items))) }
{
    while let Some(task) = tasks.pop() {
        match task {
            Task::Tree(tree) => return Ok(Some(open_node(size, tree, tasks)?)),
            Task::Replies(replies) => {
                let line = open_replies(size, replies, tasks)?;
                if line.is_some() {
                    return Ok(line);
                }
            }
            Task::End => return Ok(Some(Some(BodyLine::End))),
            _ => {
                tasks.push(task)?;
                return Ok(None);
            }
        }
    }
    Ok(None)
}

impl<'a> HeldSource<'a> {
    /// The lines of the certificate's text.
    pub fn new(alloc: Global, certificate: &'a Certificate) -> HeldSource<'a>
        ensures { result ≡ held_source_of (claim_of certificate.now) }
    {
        HeldSource {
            certificate,
            tasks: Vec::new(alloc),
            has_begun: false,
            number: 0,
            fault: None,
        }
    }

    /// The next line, which may have no spelling. `None` if no line is left.
    fn walk(&mut self) -> Result<Option<Option<Line>>, AllocError>
        ensures none { IfOk result (λ next. IfNone next (self.old.left ≡ [])) }
        ensures rest { IfOk result (λ next. IfNone next (self.new.left ≡ [])) }
        ensures line { IfOk result
            (λ next. IfSome next
            (λ line. self.old.left ≡ option_map (line_value self.old.size) line
            ∷ self.new.left)) }
        ensures size { self.new.size ≡ self.old.size }
        ensures number { self.new.number ≡ self.old.number }
        ensures fault { self.new.fault ≡ self.old.fault }
        ensures counted { self.old.fault ≡ None → self.old.number < 2 ^ 64 - 1 }
    {
        if self.has_begun {
            return next_line(self.certificate.size, &mut self.tasks);
        }
        self.has_begun = true;
        let line = begin(self.certificate, &mut self.tasks)?;
        Ok(Some(Some(line)))
    }

    /// The next line, if it is one of a body, or none if it has no spelling. `None` if it is another one; it is left then.
    fn body_line(&mut self) -> Result<Option<Option<BodyLine>>, AllocError>
        ensures none { IfOk result (λ next. IfNone next (self.new.left ≡ self.old.left)) }
        ensures line { IfOk result
            (λ next. IfSome next
            (λ line. self.old.left ≡ option_map (body_value self.old.size) line
            ∷ self.new.left)) }
        ensures size { self.new.size ≡ self.old.size }
        ensures number { self.new.number ≡ self.old.number }
        ensures fault { self.new.fault ≡ self.old.fault }
        ensures counted { self.old.fault ≡ None → self.old.number < 2 ^ 64 - 1 }
    {
        if !self.has_begun {
            return Ok(None);
        }
        next_body_line(self.certificate.size, &mut self.tasks)
    }

    /// Gives the fault now and at every later call.
    fn fail(&mut self, fault: SourceFault) -> Result<Option<Line>, SourceFault>
        requires { self.old.number < 2 ^ 64 - 1 }
        ensures answer { result ≡ Err fault }
        ensures size { self.new.size ≡ self.old.size }
        ensures left { self.new.left ≡ self.old.left }
        ensures number { self.new.number ≡ self.old.number + 1 }
        ensures fault { self.new.fault ≡ Some fault }
    {
        self.number += 1;
        self.fault = Some(fault);
        Err(fault)
    }

    /// The next line, whichever it is.
    #[inline(never)]
    fn any_line(&mut self) -> Result<Option<Line>, SourceFault>
        requires fresh { self.old.fault ≡ None }
        ensures gives { held_gives self.old (answer_value self.old.size result) self.new }
        ensures fault { self.new.fault ≡ fault_of result }
        ensures size { self.new.size ≡ self.old.size }
        ensures number { self.new.number ≡ self.old.number + lines_counted result }
    {
        let Ok(next) = self.walk() else {
            return self.fail(SourceFault::Memory);
        };
        let Some(line) = next else {
            return Ok(None);
        };
        if self.number == MOST_LINES {
            return self.fail(SourceFault::Read);
        }
        if line.is_none() {
            return self.fail(SourceFault::Malformed);
        }
        self.number += 1;
        Ok(line)
    }
}

impl<'a> NodeSource for HeldSource<'a> {
    ghost use Rattle.proof_cert.specs.Held.{held_gives};

    ghost size = { λ s. s.size };

    ghost number = { λ s. s.number };

    ghost fault = { λ s. s.fault };

    ghost gives = { held_gives };

    #[inline(never)]
    fn next(&mut self) -> Result<Option<Line>, SourceFault> {
        if let Some(fault) = self.fault {
            return Err(fault);
        }
        if self.number == MOST_LINES {
            return self.any_line();
        }
        let Ok(next) = self.body_line() else {
            return self.fail(SourceFault::Memory);
        };
        let Some(spelled) = next else {
            return self.any_line();
        };
        let Some(line) = spelled else {
            return self.fail(SourceFault::Malformed);
        };
        self.number += 1;
        // Each arm returns by itself: what the arms of a `match` give is copied once more.
        match line {
            BodyLine::Won => return Ok(Some(Line::Won)),
            BodyLine::Use(lemma) => return Ok(Some(Line::Use(lemma))),
            BodyLine::Play(turn) => return Ok(Some(Line::Play(turn))),
            BodyLine::All(replies) => return Ok(Some(Line::All(replies))),
            BodyLine::Reply(turn) => return Ok(Some(Line::Reply(turn))),
            BodyLine::End => return Ok(Some(Line::End)),
        }
    }

    fn size(&self) -> Size {
        self.certificate.size
    }

    fn line_number(&self) -> u64 {
        self.number
    }
}
