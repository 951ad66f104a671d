//! The judge of a claim, which takes a line at a time and holds none of them. `judge_heading` has the calls for the lines before a
//! tree, and `judge_body` those for the lines of a tree.

ghost use Rattle.std.specs.Prelude.{◌≡◌, ◌<◌, ◌^◌, Bool, List, suc, None, Some, IfOk, IfErr, OnOk};
ghost use Rattle.go_points.specs.declared.Cell.{Cell as SpecCell};
ghost use Rattle.proof_cert.specs.Stage.{line_value};
ghost use Rattle.cert_check.specs.Body.{Why as SpecWhy};
ghost use Rattle.cert_check.specs.Private.Judging.{IsReady, IsToldBy, answering, bad_line, machine_of, Takes};
ghost use Rattle.cert_check.specs.Verdict.{accepted, begun, ended, goes_on, rejected, stops, taken};
ghost use Rattle.cert_check.specs.Parts.{IsJudged};
ghost use Rattle.cert_check.specs.Stage.{why_value};
ghost use Rattle.cert_check.specs.declared.reject.Why.TheVariants.{Memory};

use crate::body::Head;
use crate::body_state::BodyState;
use crate::kind::Kind;
use crate::lemma_set::LemmaSet;
use crate::lines::{line_fits, node_of, rests_on_shape};
use crate::open_nodes::{Due, MOST_OPEN};
use crate::reject::{Reject, Why};
use arrayvec::ArrayVec;
use go_points::{Colour, Colouring, ColouringList};
use pass_alive::lives_on;
use proof_cert::{Line, Version};
use std::alloc::{AllocError, Global};
use target_game::{Problem, TurnsLeft};

/// Whose body is judged.
#[derive(Clone, Copy, Debug, PartialEq, Eq)]
pub(crate) enum Within {
    Lemma,
    Main,
}

/// Which line is due: the first line; `lemma` or `main`; a line of either of a lemma's lists, or the one after them; a line of the
/// second list, or the lemma's first node; a line of a body; or none.
#[derive(Clone, Copy, Debug, PartialEq, Eq)]
pub(crate) enum Phase {
    Header,
    Opening,
    ListingHad,
    Listing,
    Body { within: Within, due: Due },
    Done,
}

/// What is kept of a claim between two lines: the heads of its lemmas, what the present lemma says before its tree, the lemmas
/// whose lists are known to be contained in its own list, the state of the present body with its open nodes, and the counts.
/// `place` is the number of the next line.
#[derive(Drop)]
pub(crate) struct Judge<'p> {
    pub(crate) alloc: Global,
    pub(crate) problem: &'p Problem,
    pub(crate) phase: Phase,
    pub(crate) place: u64,
    pub(crate) node_count: u32,
    pub(crate) listed_count: u32,
    pub(crate) version: Version,
    pub(crate) winner: Colour,
    pub(crate) heads: Vec<Head>,
    pub(crate) mover: Colour,
    pub(crate) passes: u8,
    pub(crate) root: Colouring,
    pub(crate) had: Vec<Colouring>,
    pub(crate) list: ColouringList,
    pub(crate) passed: LemmaSet,
    pub(crate) state: BodyState,
    pub(crate) open_nodes: ArrayVec<TurnsLeft, MOST_OPEN>,
}

impl<'p> Judge<'p> {
    /// The judge before the first line.
    pub(crate) fn new(alloc: Global, problem: &'p Problem) -> Result<Judge<'p>, AllocError>
        ensures problem { IfOk result (λ j. j.problem.now ≡ problem.now) }
        ensures machine { IfOk result (λ j. machine_of j ≡ begun) }
        ensures ready { IfOk result (λ j. IsReady j) }
    {
        let state = BodyState::of(alloc, problem)?;
        Ok(Judge {
            alloc,
            problem,
            phase: Phase::Header,
            place: 1,
            node_count: 0,
            listed_count: 0,
            version: Version::One,
            winner: problem.mover(),
            heads: Vec::new(alloc),
            mover: problem.mover(),
            passes: 0,
            root: *problem.colouring(),
            had: Vec::new(alloc),
            list: ColouringList::new(alloc),
            passed: LemmaSet::new(alloc),
            state,
            open_nodes: ArrayVec::new(),
        })
    }

    /// Why the next line is refused.
    pub(crate) fn reject(&self, why: Why) -> Reject
        ensures place { result.place ≡ self.now.place }
        ensures why { result.why ≡ why }
    {
        Reject {
            place: self.place,
            why,
        }
    }

    /// Why a line that is malformed, or does not fit the board, is refused.
    fn malformed_why(&self) -> Why
        ensures value { why_value self.now.problem.now.game.size result
            ≡ Some (bad_line (machine_of self.now).phase) }
        ensures judged { IsJudged result }
        ensures heard { result ≡ Memory → ⊥ }
    {
        match self.phase {
            Phase::Done => Why::TextAfterEnd,
            _ => Why::Malformed,
        }
    }

    /// Judges the next line, which has not been counted yet. If it rests on the shape of the targets, `alive` is whether it may.
    fn step(&mut self, line: &Line, alive: bool) -> Result<(), Why>
        requires ready { IsReady self.old }
        ensures { Takes self.old self.new
            (taken (answering alive) self.old.problem.now (machine_of self.old)
            (Some (line_value self.old.problem.now.game.size line.now))) result }
    {
        if !line_fits(self.problem.size(), line) {
            return Err(self.malformed_why());
        }
        match self.phase {
            Phase::Header => self.header(line),
            Phase::Opening => self.opening(line),
            Phase::ListingHad => self.listing_had(line, alive),
            Phase::Listing => self.listing(line, alive),
            Phase::Body {
                within,
                due: Due::Node,
            } => self.node(within, line, alive),
            Phase::Body {
                within,
                due: Due::Reply { due, left },
            } => self.reply(within, due, left, line),
            Phase::Body {
                within,
                due: Due::End,
            } => self.close(within, line),
            Phase::Done => Err(Why::TextAfterEnd),
        }
    }

    /// Whether the line may rest on the shape of the targets, in a claim of this kind: what every shape that tells where
    /// they live answers, as far as the line asks.
    fn is_alive(&self, kind: Kind, line: &Line) -> bool
        requires ready { IsReady self.now }
        ensures { (shape : List SpecCell → Bool)
            → IsToldBy kind self.now.problem.now.game shape
            → taken shape self.now.problem.now (machine_of self.now)
            (Some (line_value self.now.problem.now.game.size line.now))
            ≡ taken (answering result) self.now.problem.now (machine_of self.now)
            (Some (line_value self.now.problem.now.game.size line.now)) }
    {
        if kind == Kind::Ordinary {
            return false;
        }
        let Some(node) = node_of(line) else {
            return false;
        };
        if !rests_on_shape(&node) {
            return false;
        }
        lives_on(self.problem, self.state.play().board())
    }

    /// Takes the next line of a claim of this kind.
    pub(crate) fn take(&mut self, kind: Kind, line: &Line) -> Result<(), Reject>
        requires ready { IsReady self.old }
        requires few { self.old.place < 2 ^ 63 }
        ensures problem { self.new.problem.now ≡ self.old.problem.now }
        ensures ready { OnOk result (IsReady self.new) }
        ensures ok { (shape : List SpecCell → Bool)
            → IsToldBy kind self.old.problem.now.game shape
            → OnOk result
            (taken shape self.old.problem.now (machine_of self.old)
            (Some (line_value self.old.problem.now.game.size line.now))
            ≡ goes_on (machine_of self.new)) }
        ensures place { OnOk result (self.new.place ≡ suc self.old.place) }
        ensures err { (shape : List SpecCell → Bool)
            → IsToldBy kind self.old.problem.now.game shape
            → IfErr result (λ e. (why : SpecWhy)
            → why_value self.old.problem.now.game.size e.why ≡ Some why
            → taken shape self.old.problem.now (machine_of self.old)
            (Some (line_value self.old.problem.now.game.size line.now)) ≡ stops e.place why) }
        ensures there { IfErr result (λ e. e.place ≡ self.old.place) }
        ensures judged { IfErr result (λ e. IsJudged e.why) }
    {
        let alive = self.is_alive(kind, line);
        match self.step(line, alive) {
            Ok(()) => {
                self.place += 1;
                Ok(())
            }
            Err(why) => Err(self.reject(why)),
        }
    }

    /// Why a malformed line is refused.
    pub(crate) fn malformed(&self) -> Reject
        ensures err { (shape : List SpecCell → Bool) (why : SpecWhy)
            → why_value self.now.problem.now.game.size result.why ≡ Some why
            → taken shape self.now.problem.now (machine_of self.now) None
            ≡ stops result.place why }
        ensures there { result.place ≡ self.now.place }
        ensures judged { IsJudged result.why }
        ensures heard { result.why ≡ Memory → ⊥ }
    {
        self.reject(self.malformed_why())
    }

    /// Who wins, if no line follows.
    pub(crate) fn end(&self) -> Result<Colour, Reject>
        ensures ok { IfOk result (λ x. ended (machine_of self.now) ≡ accepted x) }
        ensures err { IfErr result (λ e. (why : SpecWhy)
            → why_value self.now.problem.now.game.size e.why ≡ Some why
            → ended (machine_of self.now) ≡ rejected e.place why) }
        ensures there { IfErr result (λ e. e.place ≡ self.now.place) }
        ensures judged { IfErr result (λ e. IsJudged e.why) }
        ensures heard { IfErr result (λ e. e.why ≡ Memory → ⊥) }
    {
        match self.phase {
            Phase::Done => Ok(self.winner),
            _ => Err(self.reject(Why::Malformed)),
        }
    }
}
