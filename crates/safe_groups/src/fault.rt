//! Why a claim is not accepted.

use go_points::{Point, to_sgf};
use std::alloc::{AllocError, Global};

/// The first fault of a line of a claim.
#[derive(Clone, Copy, Debug, PartialEq, Eq)]
pub enum Fault {
    /// The line is not spelled as it has to be, not ended, missing, or not allowed there.
    Malformed,
    SizeDiffers,
    WrongSide,
    /// All targets in the region stand.
    NotWon,
    /// An answer outside the region, or at a point that is not empty.
    TurnBarred,
    /// So many replies are due.
    ReplyCount { due: usize },
    /// A reply to a move at this point is due.
    ReplyDue { point: Point },
    /// A reply to a pass is due.
    PassDue,
    NoSuchNumber,
    Limit,
    TextAfterEnd,
    KeptStoneMissing,
    PointNotFree,
    BoardDiffers,
    GivesNotKept,
    TargetNotKept,
    TargetNotInRegion,
    PastBars,
    NoLiberty,
    /// The other side's move at this point takes stones.
    StonesTaken { point: Point },
    NotCovered,
    NotAtRest,
    /// The stone that is played has no liberty.
    OwnStonesTaken,
    /// The other side's move at this point takes stones that may stand in truth.
    UnsureLoss { point: Point },
}

/// Why a claim is not accepted, or was not judged.
#[derive(Clone, Copy, Debug, PartialEq, Eq)]
pub enum Stop {
    Fault(Fault),
    /// A request for memory was refused.
    Memory,
    /// The input could not be read.
    Read,
}

/// The vertex of the point, as in the lines of a claim.
fn vertex(alloc: Global, point: Point) -> Result<String, AllocError> {
    let letters = to_sgf(point);
    let mut text = Vec::new(alloc);
    text.push(letters[0])?;
    text.push(letters[1])?;
    match String::from_utf8(text) {
        Ok(text) => Ok(text),
        Err(_) => Err(AllocError),
    }
}

impl Fault {
    /// The code and the words of the fault.
    pub fn text(self, alloc: Global) -> Result<String, AllocError> {
        match self {
            Fault::ReplyCount { due } => format!(in alloc; "C09 replies differ, {due} due"),
            Fault::ReplyDue { point } => {
                let at = vertex(alloc, point)?;
                format!(in alloc; "C09 replies differ, due {at}")
            }
            Fault::StonesTaken { point } => {
                let at = vertex(alloc, point)?;
                format!(in alloc; "C28 stones taken at {at}")
            }
            Fault::UnsureLoss { point } => {
                let at = vertex(alloc, point)?;
                format!(in alloc; "C32 unsure loss at {at}")
            }
            _ => self.words().to_string(alloc),
        }
    }

    /// The words of a fault that names nothing.
    fn words(self) -> &'static str {
        match self {
            Fault::Malformed => "C01 malformed",
            Fault::SizeDiffers => "C02 size differs",
            Fault::NotWon => "C04 not won",
            Fault::WrongSide => "C05 wrong side or after the end",
            Fault::TurnBarred => "C06 turn barred",
            Fault::PassDue => "C09 replies differ, due pass",
            Fault::NoSuchNumber => "C10 number not there",
            Fault::Limit => "C15 limit",
            Fault::TextAfterEnd => "C16 text after the end",
            Fault::KeptStoneMissing => "C21 kept stone missing",
            Fault::PointNotFree => "C22 point not free",
            Fault::BoardDiffers => "C23 board differs",
            Fault::GivesNotKept => "C24 gives what is not kept",
            Fault::TargetNotKept => "C25 target not kept",
            Fault::TargetNotInRegion => "C25 target not in the region",
            Fault::PastBars => "C26 past bars",
            Fault::NoLiberty => "C27 no liberty",
            Fault::NotCovered => "C29 state not covered",
            Fault::NotAtRest => "C30 not at rest",
            Fault::OwnStonesTaken => "C31 own stones taken",
            Fault::UnsureLoss { .. } => "C32 unsure loss",
            Fault::ReplyCount { .. } | Fault::ReplyDue { .. } => "C09 replies differ",
            Fault::StonesTaken { .. } => "C28 stones taken",
        }
    }
}
