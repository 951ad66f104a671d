//! Why nothing is made from a record, in the words and with the numbers that `tsumego` uses.

ghost use Rattle.std.specs.Prelude.{◌≡◌, IfOk, Ok};
ghost use Rattle.tool_parts.specs.Written.{end_of};
ghost use Rattle.tool_parts.specs.declared.output.Output.TheVariants.{Text};
ghost use Rattle.run_parts.specs.declared.status.Status.TheVariants.{Refused};

use crate::output::Output;
use run_parts::Status;
use sgf_text::SgfFault;
use std::alloc::{AllocError, Global};
use tsumego_problem::{ProblemFault, TurnFaultCause};

/// A refusal with this text. It never fails.
pub fn refused(text: String) -> Result<Output, AllocError>
    ensures { result ≡ Ok (Text text Refused) }
{
    Ok(Output::Text(text, Status::Refused))
}

/// Why no tree was read.
pub fn refused_tree(alloc: Global, fault: SgfFault) -> Result<Output, AllocError>
    ensures { IfOk result (λ o. end_of o ≡ Refused) }
{
    let number = match fault {
        SgfFault::NoTree => 1,
        SgfFault::Syntax { .. } => 2,
        SgfFault::TooLong => 3,
        SgfFault::TooDeep => 4,
        SgfFault::TooMany => 5,
        SgfFault::Memory => return Err(AllocError),
    };
    refused(format!(in alloc; "refused: sgf {number} {fault}\n")?)
}

/// The number of the fault, and the node that has it. `None` if memory was refused.
fn place_of(fault: ProblemFault) -> Option<(usize, Option<usize>)> {
    match fault {
        ProblemFault::Game => Some((1, None)),
        ProblemFault::Size => Some((2, None)),
        ProblemFault::NoProblemNode => Some((3, None)),
        ProblemFault::ManyValues { node, .. } => Some((4, Some(node))),
        ProblemFault::BadPoint { node } => Some((5, Some(node))),
        ProblemFault::SharedPoint { node } => Some((6, Some(node))),
        ProblemFault::MixedNode { node } => Some((7, Some(node))),
        ProblemFault::BothColours { node } => Some((8, Some(node))),
        ProblemFault::IllegalTurn { node, .. } => Some((9, Some(node))),
        ProblemFault::NoLiberty { node } => Some((10, Some(node))),
        ProblemFault::BadTargets { node } => Some((11, Some(node))),
        ProblemFault::Ended { node } => Some((12, Some(node))),
        ProblemFault::BadColour { node } => Some((13, Some(node))),
        ProblemFault::LongHistory { node } => Some((14, Some(node))),
        ProblemFault::Memory => None,
    }
}

/// The text after the node: why the turn there cannot be made.
fn cause_of(alloc: Global, fault: ProblemFault) -> Result<String, AllocError> {
    match fault {
        ProblemFault::IllegalTurn {
            cause: TurnFaultCause::Occupied,
            ..
        } => { format!(in alloc; ": occupied") }
        ProblemFault::IllegalTurn {
            cause: TurnFaultCause::Repeats { earlier },
            ..
        } => { format!(in alloc; ": repeats {earlier}") }
        _ => Ok(String::new(alloc)),
    }
}

/// Why a tree gives no problem.
pub fn refused_problem(alloc: Global, fault: ProblemFault) -> Result<Output, AllocError>
    ensures { IfOk result (λ o. end_of o ≡ Refused) }
{
    let Some((number, node)) = place_of(fault) else {
        return Err(AllocError);
    };
    let cause = cause_of(alloc, fault)?;
    let name = match fault {
        ProblemFault::IllegalTurn { .. } => format!(in alloc; "illegal turn")?,
        _ => format!(in alloc; "{fault}")?,
    };
    match node {
        Some(node) => refused(format!(in alloc;
            "refused: problem {number} {name} at node {node}{cause}\n"
        )?),
        None => refused(format!(in alloc; "refused: problem {number} {name}\n")?),
    }
}
