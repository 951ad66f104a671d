//! Groups of which a judge has accepted what a search finds by answers.
//!
//! Of a group that does not live by its shape the word `proved` is written only from what is made here.

ghost use Rattle.std.specs.Prelude.{◌≡◌, false, IfOk, IfSome, IsTrue};
ghost use Rattle.go_points.specs.Place.{Place};
ghost use Rattle.proved_groups.specs.Proven.{problem_of, problem_by_move, supposed_of, supposed_by_move, Dies, IsAbout, IsAboutByMove, LivesBy, SaysEnd, SaysStatus, SaysStatusAfter, SaysWinner, SaysWinnerByMove};

use crate::dead::{Dead, DeadByMove, dead_stones, stones_dead_by_move};
use crate::safe::{Safe, SafeByMove, safe_stones, stones_safe_by_move};
use go_points::{Colour, Point, PointSet};
use group_search::{Finding, Kind};
use std::alloc::{AllocError, Global};
use target_game::Problem;

/// What a judge has accepted of the stones of a finding: a problem with these as its targets, and the whole board as its region.
#[derive(Drop)]
pub enum Accepted {
    Alive(Safe),
    Dead(Dead),
}

/// A finding that a judge has accepted.
#[derive(Drop)]
pub struct Proven {
    finding: Finding,
    claim: Accepted,
}

impl Proven {
    /// What was found. Of it only that is proved which the other calls tell.
    pub fn finding(&self) -> &Finding
        ensures { result.now ≡ self.now.finding }
    {
        &self.finding
    }

    /// The problem for which the finding's claim was accepted.
    pub fn problem(&self) -> &Problem
        ensures { result.now ≡ problem_of self.now.claim }
    {
        match &self.claim {
            Accepted::Alive(safe) => safe.problem(),
            Accepted::Dead(dead) => dead.problem(),
        }
    }

    /// The stones that are supposed to have liberties elsewhere.
    pub fn supposed(&self) -> PointSet
        ensures { result ≡ supposed_of self.now.claim }
    {
        match &self.claim {
            Accepted::Alive(_) => PointSet::new(),
            Accepted::Dead(dead) => dead.supposed(),
        }
    }

    /// Whether the stones live.
    pub fn is_alive(&self) -> bool {
        match &self.claim {
            Accepted::Alive(_) => true,
            Accepted::Dead(_) => false,
        }
    }

    /// Whether they are `alive` or `dead`.
    pub fn status(&self) -> &'static str
        ensures { SaysStatus self.now.claim result.now }
    {
        match &self.claim {
            Accepted::Alive(_) => "alive",
            Accepted::Dead(_) => "dead",
        }
    }

    /// Who wins, whoever moves first.
    pub fn winner(&self) -> Colour
        ensures { SaysWinner self.now.claim result }
    {
        match &self.claim {
            Accepted::Alive(_) => self.problem().defender(),
            Accepted::Dead(_) => self.problem().defender().opponent(),
        }
    }
}

/// What a judge has accepted of the stones of a finding where one side moves first, which is to move in the problem.
#[derive(Drop)]
pub enum AcceptedByMove {
    Alive(SafeByMove),
    Dead(DeadByMove),
}

/// A finding that begins with a first move, and that a judge has accepted.
#[derive(Drop)]
pub struct ProvenByMove {
    finding: Finding,
    claim: AcceptedByMove,
}

impl ProvenByMove {
    /// What was found. Of it only that is proved which the other calls tell.
    pub fn finding(&self) -> &Finding
        ensures { result.now ≡ self.now.finding }
    {
        &self.finding
    }

    /// The problem for which the finding's claim was accepted.
    pub fn problem(&self) -> &Problem
        ensures { result.now ≡ problem_by_move self.now.claim }
    {
        match &self.claim {
            AcceptedByMove::Alive(safe) => safe.problem(),
            AcceptedByMove::Dead(dead) => dead.problem(),
        }
    }

    /// The stones that are supposed to have liberties elsewhere.
    pub fn supposed(&self) -> PointSet
        ensures { result ≡ supposed_by_move self.now.claim }
    {
        match &self.claim {
            AcceptedByMove::Alive(_) => PointSet::new(),
            AcceptedByMove::Dead(dead) => dead.supposed(),
        }
    }

    /// Whether the stones live by that move, which is their owner's; otherwise they are taken by it, which is the other side's.
    pub fn is_alive(&self) -> bool
        ensures lives { IsTrue result → (m : Place) × LivesBy self.now.claim m }
        ensures dies { result ≡ false → Dies self.now.claim }
    {
        match &self.claim {
            AcceptedByMove::Alive(_) => true,
            AcceptedByMove::Dead(_) => false,
        }
    }

    /// The side that moves first, and by whose move it is so.
    pub fn mover(&self) -> Colour
        ensures { result ≡ (problem_by_move self.now.claim).mover }
    {
        self.problem().mover()
    }

    /// Who wins by moving first.
    pub fn winner(&self) -> Colour
        ensures { SaysWinnerByMove self.now.claim result }
    {
        self.mover()
    }

    /// The first move, and whether the stones are `alive` or `dead` once it is made. Where they die, that it is this move is not proved.
    pub fn status(&self) -> (Option<Point>, &'static str)
        ensures { SaysStatusAfter self.now.claim result.0 result.1.now }
    {
        match &self.claim {
            AcceptedByMove::Alive(safe) => (Some(safe.first()), "alive"),
            AcceptedByMove::Dead(_) => (self.finding.first, "dead"),
        }
    }

    /// The first move, and whether they are said to live or to die by it: `lives` or `dies`. Where they die, that it is this move is
    /// not proved.
    pub fn end(&self) -> (Option<Point>, &'static str)
        ensures { SaysEnd self.now.claim result.0 result.1.now }
    {
        match &self.claim {
            AcceptedByMove::Alive(safe) => (Some(safe.first()), "lives"),
            AcceptedByMove::Dead(_) => (self.finding.first, "dies"),
        }
    }
}

/// Whether it is found that the stones live.
pub(crate) fn is_life(finding: &Finding) -> bool {
    !matches!(finding.kind, Kind::Dead | Kind::DeadWhile)
}

/// The finding with the problem of its stones, if a judge accepts its claim.
pub fn judged(
    alloc: Global,
    problem: &Problem,
    finding: Finding,
) -> Result<Option<Proven>, AllocError>
    ensures { IfOk result (λ o. IfSome o (λ p. (p.finding ≡ finding) × IsAbout problem.now p)) }
{
    let claim = finding.claim.as_slice();
    if is_life(&finding) {
        return match safe_stones(alloc, problem, finding.stones, claim)? {
            Some(safe) => Ok(Some(Proven {
                finding,
                claim: Accepted::Alive(safe),
            })),
            None => Ok(None),
        };
    }
    match dead_stones(alloc, problem, finding.colour, finding.stones, claim)? {
        Some(dead) => Ok(Some(Proven {
            finding,
            claim: Accepted::Dead(dead),
        })),
        None => Ok(None),
    }
}

/// The finding, which begins with a first move, with the problem of its stones, if a judge accepts its claim.
pub(crate) fn judged_by_move(
    alloc: Global,
    problem: &Problem,
    finding: Finding,
) -> Result<Option<ProvenByMove>, AllocError>
    ensures { IfOk result (λ o. IfSome o (λ p. (p.finding ≡ finding)
        × IsAboutByMove problem.now p)) }
{
    let claim = finding.claim.as_slice();
    let (owner, stones) = (finding.colour, finding.stones);
    if is_life(&finding) {
        return match stones_safe_by_move(alloc, problem, owner, stones, claim)? {
            Some(safe) => Ok(Some(ProvenByMove {
                finding,
                claim: AcceptedByMove::Alive(safe),
            })),
            None => Ok(None),
        };
    }
    match stones_dead_by_move(alloc, problem, owner, stones, claim)? {
        Some(dead) => Ok(Some(ProvenByMove {
            finding,
            claim: AcceptedByMove::Dead(dead),
        })),
        None => Ok(None),
    }
}
