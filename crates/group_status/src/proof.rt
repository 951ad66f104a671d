//! Why a group is alive or dead, where that is proved, as lines for a reader.

ghost use Rattle.std.specs.Prelude.{◌≡◌, IfOk, string_bytes};
ghost use Rattle.group_status.specs.Lines.{BeginsWith, condition_of, IsFirstLine, IsProvedLine, IsWinnerLine, proved_text, SaysFate, SaysWhoWins, won_text};

use crate::condition::condition_of;
use crate::names::point_name;
use crate::reasons::{by_answers, by_shape};
use crate::totals::Said;
use go_points::{Colour, Point, Size};
use group_search::Kind;
use group_words::Side;
use proved_groups::{ByShape, Proven};
use std::alloc::{AllocError, Global};
use tool_parts::colour_name;

/// Why a group is alive, or dead.
#[derive(Drop)]
pub(crate) enum Proof {
    /// It lives by its shape. With the finding that says so, if there is one.
    Shape(ByShape, Option<Proven>),
    /// By answers.
    Answers(Proven),
}

impl Proof {
    /// What a judge has accepted of the group.
    pub(crate) fn proven(&self) -> Option<&Proven> {
        match self {
            Proof::Shape(_, proven) => proven.as_ref(),
            Proof::Answers(proven) => Some(proven),
        }
    }

    pub(crate) fn is_alive(&self) -> bool {
        match self {
            Proof::Shape(_, _) => true,
            Proof::Answers(proven) => proven.is_alive(),
        }
    }

    /// Who wins, whoever moves first.
    pub(crate) fn winner(&self) -> Colour
        ensures { SaysWhoWins self.now result }
    {
        match self {
            Proof::Shape(shape, _) => shape.owner(),
            Proof::Answers(proven) => proven.winner(),
        }
    }

    /// What it says of the group where all are counted.
    pub(crate) fn said(&self) -> Said {
        if self.is_alive() {
            Said::Proved
        } else {
            Said::Dead
        }
    }

    /// Whether the group is `alive` or `dead`.
    pub(crate) fn status(&self) -> &'static str
        ensures { SaysFate self.now result.now }
    {
        match self {
            Proof::Shape(_, _) => "alive",
            Proof::Answers(proven) => proven.status(),
        }
    }
    /// On which stones it depends that they have liberties elsewhere, if on any.
    fn condition(&self, alloc: Global, size: Size) -> Result<String, AllocError>
        ensures { IfOk result (λ text. string_bytes text ≡ condition_of size self.now) }
    {
        match self {
            Proof::Shape(_, _) => Ok(String::new(alloc)),
            Proof::Answers(proven) => condition_of(alloc, size, proven),
        }
    }
}

/// The lines of a group; if only one side is asked about, the first says who wins.
pub(crate) fn proof_lines(
    alloc: Global,
    size: Size,
    target: Point,
    defender: Colour,
    first: Option<Side>,
    proof: &Proof,
) -> Result<String, AllocError>
    ensures { IfOk result
        (λ text. BeginsWith (IsFirstLine size target first proof.now) (string_bytes text)) }
{
    let line = first_line(alloc, size, target, first, proof)?;
    let reasons = match proof {
        Proof::Answers(proven) if proven.finding().kind != Kind::PassAlive => {
            by_answers(alloc, size, defender, proven)?
        }
        _ => by_shape(alloc)?,
    };
    format!(in alloc; "{line}{reasons}")
}

/// The first of these lines.
fn first_line(
    alloc: Global,
    size: Size,
    target: Point,
    first: Option<Side>,
    proof: &Proof,
) -> Result<String, AllocError>
    ensures { IfOk result (λ text. IsFirstLine size target first proof.now (string_bytes text)) }
{
    match first {
        None => proved_line(alloc, size, target, proof),
        Some(_) => winner_line(alloc, size, target, proof),
    }
}

/// The line of a group whose fate is proved, whoever moves first.
pub(crate) fn proved_line(
    alloc: Global,
    size: Size,
    target: Point,
    proof: &Proof,
) -> Result<String, AllocError>
    ensures { IfOk result (λ text. IsProvedLine size target proof.now (string_bytes text)) }
{
    let condition = proof.condition(alloc, size)?;
    fate_line(alloc, size, target, proof.status(), condition.as_str())
}

/// The line of a group whose fate is proved where one side moves first: who wins.
fn winner_line(
    alloc: Global,
    size: Size,
    target: Point,
    proof: &Proof,
) -> Result<String, AllocError>
    ensures { IfOk result (λ text. IsWinnerLine size target proof.now (string_bytes text)) }
{
    let condition = proof.condition(alloc, size)?;
    won_line(alloc, size, target, proof.winner(), condition.as_str())
}

/// The line that says what becomes of a group, that it is proved, and on what condition.
pub(crate) fn fate_line(
    alloc: Global,
    size: Size,
    target: Point,
    fate: &str,
    condition: &str,
) -> Result<String, AllocError>
    ensures { IfOk result
        (λ text. string_bytes text ≡ proved_text size target fate.now condition.now) }
{
    let name = point_name(alloc, size, target)?;
    format!(in alloc; "{name}: {fate} (proved{condition})\n")
}

/// The same of who wins.
pub(crate) fn won_line(
    alloc: Global,
    size: Size,
    target: Point,
    winner: Colour,
    condition: &str,
) -> Result<String, AllocError>
    ensures { IfOk result
        (λ text. string_bytes text ≡ won_text size target winner condition.now) }
{
    let name = point_name(alloc, size, target)?;
    let won = colour_name(winner);
    format!(in alloc; "{name}: {won} wins (proved{condition})\n")
}
