//! Why nothing is made, in words.

ghost use Rattle.std.specs.Prelude.{◌≡◌, IfOk};
ghost use Rattle.tool_parts.specs.Written.{end_of};
ghost use Rattle.run_parts.specs.declared.status.Status.TheVariants.{Refused};

use go_points::{Turn, to_sgf};
use record_marks::Refusal;
use record_pages::NoPage;
use record_pictures::NoPicture;
use run_parts::Status;
use solution_tree::AuditWhy;
use std::alloc::{AllocError, Global};
use tool_parts::{Output, refused, refused_problem, text_of};

/// Why no record was made.
pub(crate) fn no_mark(alloc: Global, refusal: Refusal) -> Result<Output, AllocError>
    ensures { IfOk result (λ o. end_of o ≡ Refused) }
{
    match refusal {
        Refusal::Memory => Err(AllocError),
        Refusal::OffTheLine => off_the_line(alloc),
        Refusal::BadShut => {
            refused(format!(in alloc; "refused: what is to be shut is no list of points\n")?)
        }
        Refusal::BadMarks => refused(format!(in alloc; "refused: the marks are no points\n")?),
        Refusal::EmptyRegion => refused(format!(in alloc;
            "refused: the target can play nowhere, name a region\n"
        )?),
        Refusal::BadTarget => refused(format!(in alloc;
            "refused: --target is no list of points of the board, as dc,D17\n"
        )?),
        Refusal::BadRegion => refused(format!(in alloc;
            "refused: --region is no list of points of the board, as dc,D17:F16\n"
        )?),
        Refusal::NoProblem(fault) => refused_problem(alloc, fault),
    }
}

fn off_the_line(alloc: Global) -> Result<Output, AllocError>
    ensures { IfOk result (λ o. end_of o ≡ Refused) }
{
    refused(format!(in alloc; "refused: the main line has no such node\n")?)
}

/// Why a tree is no proof, in the words of `tsumego audit`.
fn why_text(alloc: Global, why: AuditWhy) -> Result<String, AllocError> {
    match why {
        AuditWhy::NoTurn => format!(in alloc; "A01 no turn"),
        AuditWhy::WrongColour => format!(in alloc; "A02 wrong colour"),
        AuditWhy::TurnBarred => format!(in alloc; "A03 turn barred"),
        AuditWhy::ReplyMissing { due } => {
            let due = turn_name(alloc, due)?;
            format!(in alloc; "A04 reply missing {due}")
        }
        AuditWhy::ReplyTwice => format!(in alloc; "A05 reply twice"),
        AuditWhy::NotWon => format!(in alloc; "A06 not won"),
        AuditWhy::AfterTheEnd => format!(in alloc; "A07 after the end"),
        AuditWhy::SeveralAnswers => format!(in alloc; "A08 several answers"),
        AuditWhy::Memory => Err(AllocError),
    }
}

/// The two letters of a point, or `pass`.
fn turn_name(alloc: Global, turn: Turn) -> Result<String, AllocError> {
    match turn {
        Turn::Pass => format!(in alloc; "pass"),
        Turn::At(point) => text_of(alloc, to_sgf(point).as_slice()),
    }
}

/// Why no page was made.
pub(crate) fn no_page(alloc: Global, refusal: NoPage) -> Result<Output, AllocError> {
    match refusal {
        NoPage::Memory => Err(AllocError),
        NoPage::NoProblem(fault) => refused_problem(alloc, fault),
        NoPage::NoAnswer(fault) => {
            let node = fault.node;
            let why = why_text(alloc, fault.why)?;
            let text = format!(in alloc; "rejected node {node}: {why}\n")?;
            Ok(Output::Text(text, Status::Unanswered))
        }
        NoPage::WrongTurn => {
            let text = format!(in alloc;
                "rejected: what stands below a first turn does not show what is said of it\n"
            )?;
            Ok(Output::Text(text, Status::Unanswered))
        }
        NoPage::NoWinner => refused(format!(in alloc;
            "refused: the comment of the problem node does not say who wins\n"
        )?),
        NoPage::OtherProblem => refused(format!(in alloc;
            "refused: the second record has another problem\n"
        )?),
        NoPage::NotThePage => refused(format!(in alloc;
            "refused: the titles, labels or comments do not fit the page\n"
        )?),
    }
}

/// Why no picture was made.
pub(crate) fn no_picture(alloc: Global, refusal: NoPicture) -> Result<Output, AllocError> {
    match refusal {
        NoPicture::Memory => Err(AllocError),
        NoPicture::NoProblem(fault) => refused_problem(alloc, fault),
        NoPicture::NoProblemNode => refused(format!(in alloc;
            "refused: problem 3 no problem node (--node 0 draws the root)\n"
        )?),
        NoPicture::OffTheLine => off_the_line(alloc),
    }
}
