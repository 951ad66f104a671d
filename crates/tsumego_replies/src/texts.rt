//! What the program prints.

ghost use Rattle.std.specs.Prelude.{◌≡◌, ◌<◌, IfOk, Some, string_bytes};
ghost use Rattle.std.specs.List.{All};
ghost use Rattle.go_points.specs.declared.Turn.TheVariants.{At};
ghost use Rattle.go_points.specs.Ply.{ply_of};
ghost use Rattle.proof_cert.specs.Text.{vertex_text};
ghost use Rattle.cert_check.specs.Body.{Why as SpecWhy};
ghost use Rattle.cert_check.specs.Stage.{why_value};
ghost use Rattle.solution_tree.specs.Audit.{Why as NodeWhy};
ghost use Rattle.solution_tree.specs.Faults.{why_value as node_why};
ghost use Rattle.tsumego_problem.specs.Refusals.{sgf_refusal, problem_refusal, property_name, cause_text};
ghost use Rattle.tsumego_replies.specs.Texts.{line, wins_text, rejected_line_text, claim_fault_text, rejected_node_text, audit_fault_text, search_cause_text, unknown_text};

use cert_check::{Reject, Why};
use go_points::{Colour, MAX_SIZE, Point, Size, Turn, to_sgf};
use pn_search::Cause;
use sgf_text::SgfFault;
use solution_tree::{AuditFault, AuditWhy};
use std::alloc::{AllocError, Global};
use tsumego_problem::{ProblemFault, SingleProperty, TurnFaultCause};

/// Memory was refused.
pub const NO_MEMORY: &[u8] = b"failed: memory\n";

/// A read failed, or the input has no end in sight.
pub const NO_READ: &[u8] = b"failed: read\n";

/// The answer tree has more turns than are written.
pub const TOO_LARGE: &[u8] = b"unknown: tree too large\n";

/// This side wins.
pub fn wins_text(winner: Colour) -> &'static str
    ensures { result.now ≡ wins_text winner }
{
    match winner {
        Colour::Black => "wins Black\n",
        Colour::White => "wins White\n",
    }
}

/// Why no tree was read.
pub fn sgf_refusal(alloc: Global, fault: SgfFault) -> Result<String, AllocError>
    ensures { IfOk result (λ text. string_bytes text ≡ line (sgf_refusal fault)) }
{
    match fault {
        SgfFault::NoTree => format!(in alloc; "refused: sgf 1 no tree\n"),
        SgfFault::Syntax { at } => format!(in alloc; "refused: sgf 2 syntax at {at}\n"),
        SgfFault::TooLong => format!(in alloc; "refused: sgf 3 too long\n"),
        SgfFault::TooDeep => format!(in alloc; "refused: sgf 4 too deep\n"),
        SgfFault::TooMany => format!(in alloc; "refused: sgf 5 too many nodes\n"),
        SgfFault::Memory => format!(in alloc; "failed: memory\n"),
    }
}

fn property_name(property: SingleProperty) -> &'static str
    ensures { result.now ≡ property_name property }
{
    match property {
        SingleProperty::B => "B",
        SingleProperty::W => "W",
        SingleProperty::PL => "PL",
    }
}

fn cause_text(alloc: Global, cause: TurnFaultCause) -> Result<String, AllocError>
    ensures { IfOk result (λ text. string_bytes text ≡ cause_text cause) }
{
    match cause {
        TurnFaultCause::Occupied => format!(in alloc; ": occupied"),
        TurnFaultCause::Repeats { earlier } => format!(in alloc; ": repeats {earlier}"),
    }
}

/// Why a tree gives no problem.
pub fn problem_refusal(alloc: Global, fault: ProblemFault) -> Result<String, AllocError>
    ensures { IfOk result (λ text. string_bytes text ≡ line (problem_refusal fault)) }
{
    match fault {
        ProblemFault::Game => format!(in alloc; "refused: problem 1 game\n"),
        ProblemFault::Size => format!(in alloc; "refused: problem 2 size\n"),
        ProblemFault::NoProblemNode => format!(in alloc; "refused: problem 3 no problem node\n"),
        ProblemFault::ManyValues { property, node } => {
            let name = property_name(property);
            format!(in alloc; "refused: problem 4 many values of {name} at node {node}\n")
        }
        ProblemFault::BadPoint { node } => format!(in alloc;
            "refused: problem 5 bad point at node {node}\n"
        ),
        ProblemFault::SharedPoint { node } => format!(in alloc;
            "refused: problem 6 shared point at node {node}\n"
        ),
        ProblemFault::MixedNode { node } => format!(in alloc;
            "refused: problem 7 mixed at node {node}\n"
        ),
        ProblemFault::BothColours { node } => format!(in alloc;
            "refused: problem 8 both colours at node {node}\n"
        ),
        ProblemFault::IllegalTurn { node, cause } => {
            let cause = cause_text(alloc, cause)?;
            format!(in alloc; "refused: problem 9 illegal turn at node {node}{cause}\n")
        }
        ProblemFault::NoLiberty { node } => format!(in alloc;
            "refused: problem 10 no liberty at node {node}\n"
        ),
        ProblemFault::BadTargets { node } => format!(in alloc;
            "refused: problem 11 bad targets at node {node}\n"
        ),
        ProblemFault::Ended { node } => format!(in alloc;
            "refused: problem 12 ended at node {node}\n"
        ),
        ProblemFault::BadColour { node } => format!(in alloc;
            "refused: problem 13 bad colour at node {node}\n"
        ),
        ProblemFault::LongHistory { node } => format!(in alloc;
            "refused: problem 14 long history at node {node}\n"
        ),
        ProblemFault::Memory => format!(in alloc; "failed: memory\n"),
    }
}

/// Why a line of a claim is refused. The cause must not be that memory was refused.
pub fn reject_text(alloc: Global, size: Size, reject: &Reject) -> Result<String, AllocError>
    ensures { IfOk result (λ text. (why : SpecWhy) → why_value size reject.now.why ≡ Some why
        → string_bytes text ≡ rejected_line_text size reject.now.place why) }
{
    let why = why_text(alloc, size, reject.why)?;
    let place = reject.place;
    format!(in alloc; "rejected line {place}: {why}\n")
}

fn why_text(alloc: Global, size: Size, why: Why) -> Result<String, AllocError>
    ensures { IfOk result (λ text. (w : SpecWhy) → why_value size why ≡ Some w
        → string_bytes text ≡ claim_fault_text size w) }
{
    match why {
        Why::Malformed => format!(in alloc; "C01 malformed"),
        Why::SizeDiffers => format!(in alloc; "C02 size differs"),
        Why::RootWithoutLiberty => format!(in alloc; "C03 root without liberty"),
        Why::NotWon => format!(in alloc; "C04 not won"),
        Why::WrongSide => format!(in alloc; "C05 wrong side or after the end"),
        Why::TurnBarred => format!(in alloc; "C06 turn barred"),
        Why::RepeatsKnown => format!(in alloc; "C07 repeats a known position"),
        Why::NotListed => format!(in alloc; "C08 result not listed"),
        Why::RepliesDiffer { due } => {
            let due = turn_text(alloc, size, due)?;
            format!(in alloc; "C09 replies differ, due {due}")
        }
        Why::LemmaNotLower => format!(in alloc; "C10 lemma number not lower"),
        Why::StateDiffers => format!(in alloc; "C11 state differs"),
        Why::NeededNotOccurred => { format!(in alloc; "C19 needed position has not occurred") }
        Why::ListedOccurred => format!(in alloc; "C12 listed position has occurred"),
        Why::ListedNotPassedOn => format!(in alloc; "C13 listed position not passed on"),
        Why::ListOrder => format!(in alloc; "C14 list order"),
        Why::Limit => format!(in alloc; "C15 limit"),
        Why::TextAfterEnd => format!(in alloc; "C16 text after the end"),
        Why::Memory => format!(in alloc; "C17 memory"),
        Why::Read => format!(in alloc; "C18 read"),
    }
}

/// Why a node of an answer tree is refused. The cause must not be that memory was refused.
pub fn node_reject_text(alloc: Global, size: Size, fault: &AuditFault) -> Result<String, AllocError>
    ensures { IfOk result (λ text. (why : NodeWhy) → node_why size fault.now.why ≡ Some why
        → string_bytes text ≡ rejected_node_text size
        (record { node = fault.now.node; why = why })) }
{
    let why = node_why_text(alloc, size, fault.why)?;
    let node = fault.node;
    format!(in alloc; "rejected node {node}: {why}\n")
}

fn node_why_text(alloc: Global, size: Size, why: AuditWhy) -> Result<String, AllocError>
    ensures { IfOk result (λ text. (w : NodeWhy) → node_why size why ≡ Some w
        → string_bytes text ≡ audit_fault_text size w) }
{
    match why {
        AuditWhy::NoTurn => format!(in alloc; "A01 no turn"),
        AuditWhy::WrongColour => format!(in alloc; "A02 wrong colour"),
        AuditWhy::TurnBarred => format!(in alloc; "A03 turn barred"),
        AuditWhy::ReplyMissing { due } => {
            let due = turn_text(alloc, size, due)?;
            format!(in alloc; "A04 reply missing {due}")
        }
        AuditWhy::ReplyTwice => format!(in alloc; "A05 reply twice"),
        AuditWhy::NotWon => format!(in alloc; "A06 not won"),
        AuditWhy::AfterTheEnd => format!(in alloc; "A07 after the end"),
        AuditWhy::SeveralAnswers => format!(in alloc; "A08 several answers"),
        AuditWhy::Memory => format!(in alloc; "memory"),
    }
}

/// Two letters, or `pass`.
fn turn_text(alloc: Global, size: Size, turn: Turn) -> Result<String, AllocError>
    ensures { IfOk result (λ text. string_bytes text ≡ vertex_text size (ply_of size turn)) }
{
    match turn {
        Turn::Pass => format!(in alloc; "pass"),
        Turn::At(point) => {
            let letters = letters_of(size, point);
            let column = char::from(letters[0]);
            let row = char::from(letters[1]);
            format!(in alloc; "{column}{row}")
        }
    }
}

/// The letters of a point. A point that the board does not have gets the letters of the place after the last point; no reply that
/// is due is such a point.
fn letters_of(size: Size, point: Point) -> [u8; 2]
    ensures value { result ≡ vertex_text size (ply_of size (At point)) }
    ensures ascii { All (λ letter. letter < 128) result }
{
    prove!(size.area() > 0 && point.col() < MAX_SIZE && point.row() < MAX_SIZE);
    if size.holds(point) {
        to_sgf(point)
    } else {
        [b'a', b'a' + size.rows()]
    }
}

/// Why a search ended without an answer.
fn search_cause(cause: Cause) -> &'static str
    ensures { result.now ≡ search_cause_text cause }
{
    match cause {
        Cause::Steps => "step budget",
        Cause::Memory => "memory",
        Cause::NotConfirmed => "not confirmed",
        Cause::Limit => "limit",
    }
}

/// Why a search ended without an answer, and after how many steps.
pub fn unknown_text(alloc: Global, cause: Cause, steps: u64) -> Result<String, AllocError>
    ensures { IfOk result (λ text. string_bytes text ≡ unknown_text cause steps) }
{
    let cause = search_cause(cause);
    format!(in alloc; "unknown: {cause}, {steps} steps\n")
}
