//! A run of the program: from the request that its words make and its input to its answer.

ghost use Rattle.std.specs.Prelude.{◌≡◌, List, IfOk, IfSome};
ghost use Rattle.tool_parts.specs.Answered.{HasAnswered, IsAnswered};
ghost use Rattle.tool_parts.specs.Written.{end_of};
ghost use Rattle.run_parts.specs.declared.status.Status.TheVariants.{Answered};
ghost use Rattle.first_moves.specs.Outputs.{IsInForm, IsOfLine, IsOutput, IsShortText, IsTold, names_of};

use crate::found::{Found, Settings, counted, judge_turns};
use crate::graded::{long_graded, short_graded};
use crate::json::{long_json, short_json};
use crate::line::{Line, judge_line};
use crate::list::{long_list, short_list};
use crate::names::Names;
use crate::record::moves_record;
use crate::words::{Form, Request};
use pn_search::Budget;
use run_parts::{Status, TABLE};
use sgf_text::read_tree;
use std::alloc::{AllocError, Global};
use std::io::{Read, Write};
use std::num::NonZeroUsize;
use target_game::Problem;
use tool_parts::{
    NoRequest, Output, read_whole, refused_problem, refused_tree, without_input, without_request,
    write_output,
};
use tsumego_problem::read_problem;

/// Runs the program for what its words ask for, if they ask for something. How far it is goes to `notes`.
///
/// If the run is answered, the writer has taken the whole output for this request and for the bytes that the reader tells.
pub fn run<R: Read, W: Write, N: Write>(
    alloc: Global,
    request: Result<Request, NoRequest>,
    reader: &mut R,
    writer: &mut W,
    notes: &mut N,
) -> Status
    ensures { result ≡ Answered → HasAnswered IsOutput request (R.remaining reader.old)
        (W.contents writer.old) (W.contents writer.new) }
{
    write_output(writer, output(alloc, request, reader, notes))
}

/// What is written for the request and the input.
#[tactic(auto, using(tool_parts::proofs::Answering::all_read, tool_parts::proofs::Answering::not_answered, tool_parts::proofs::Answering::output_answered))]
fn output<R: Read, N: Write>(
    alloc: Global,
    request: Result<Request, NoRequest>,
    reader: &mut R,
    notes: &mut N,
) -> Result<Output, AllocError>
    ensures { IfOk result (λ o. end_of o ≡ Answered
        → IsAnswered IsOutput request (R.remaining reader.old) o) }
{
    let request = match request {
        Ok(request) => request,
        Err(none) => return without_request(none),
    };
    let mut bytes = Vec::new(alloc);
    if !read_whole(reader, &mut bytes)? {
        return without_input(alloc);
    }
    output_of(alloc, &request, bytes.as_slice(), notes)
}

/// What is written for what is asked for and these bytes.
#[tactic(auto, using(crate::proofs::Outputs::of_bytes, crate::proofs::Outputs::refused))]
fn output_of<N: Write>(
    alloc: Global,
    request: &Request,
    bytes: &[u8],
    notes: &mut N,
) -> Result<Output, AllocError>
    ensures { IfOk result (λ o. IsOutput request.now bytes.now o) }
{
    let tree = match read_tree(alloc, bytes) {
        Ok((tree, _end)) => tree,
        Err(fault) => return refused_tree(alloc, fault),
    };
    match read_problem(alloc, &tree) {
        Ok(problem) => answered(alloc, &problem, request, notes),
        Err(fault) => refused_problem(alloc, fault),
    }
}

/// What is found about the problem, in the form that is asked for.
fn answered<N: Write>(
    alloc: Global,
    problem: &Problem,
    request: &Request,
    notes: &mut N,
) -> Result<Output, AllocError>
    ensures { IfOk result (IsInForm request.now.form (IsTold request.now problem.now)) }
{
    let Some(settings) = settings(problem, request) else {
        return Err(AllocError);
    };
    let found = judge_turns(alloc, problem, &[], None, &settings, notes)?;
    let found = found.as_slice();
    if request.depth < 2 {
        return first_written(alloc, problem, request.form, &settings, found);
    }
    let line = judge_line(alloc, problem, found, request.depth, &settings, notes)?;
    line_written(alloc, problem, request.form, &settings, found, &line)
}

/// How turns are judged and told.
fn settings(problem: &Problem, request: &Request) -> Option<Settings>
    ensures { IfSome result
        (λ s. s.names ≡ names_of request.now.coordinates problem.now.game.size) }
{
    let budget = Budget {
        steps: request.steps,
        table: NonZeroUsize::new(TABLE)?,
    };
    let names = if request.coordinates {
        Names::Coordinates(problem.size())
    } else {
        Names::Letters
    };
    Some(Settings {
        budget,
        names,
        progress: request.progress,
    })
}

/// What was found of the first turns, in the form that is asked for.
fn first_written(
    alloc: Global,
    problem: &Problem,
    form: Form,
    settings: &Settings,
    found: &[Found],
) -> Result<Output, AllocError>
    ensures { IfOk result
        (IsInForm form (IsShortText form settings.now.names problem.now.mover found.now)) }
{
    match form {
        Form::Record => {
            let budget = settings.budget;
            let tree = moves_record(alloc, problem, found, counted(found), None, budget)?;
            Ok(Output::Record(tree))
        }
        Form::List => {
            let text = short_list(alloc, &settings.names, found)?;
            Ok(Output::Text(text, Status::Answered))
        }
        Form::Json => {
            let text = short_json(alloc, &settings.names, found)?;
            Ok(Output::Text(text, Status::Answered))
        }
        Form::Graded => {
            let text = short_graded(alloc, problem, settings, found)?;
            Ok(Output::Text(text, Status::Answered))
        }
    }
}

/// What was found of the first turns and of those of the line, in the form that is asked for.
fn line_written(
    alloc: Global,
    problem: &Problem,
    form: Form,
    settings: &Settings,
    found: &[Found],
    line: &Line,
) -> Result<Output, AllocError>
    ensures { IfOk result (IsInForm form (IsOfLine form settings.now.names problem.now.mover
        found.now line.now.later.items line.now.is_whole)) }
{
    match form {
        Form::Record => {
            let budget = settings.budget;
            let tree = moves_record(alloc, problem, found, counted(found), Some(line), budget)?;
            Ok(Output::Record(tree))
        }
        Form::List => {
            let text = long_list(alloc, &settings.names, found, line)?;
            Ok(Output::Text(text, Status::Answered))
        }
        Form::Json => {
            let text = long_json(alloc, &settings.names, found, line)?;
            Ok(Output::Text(text, Status::Answered))
        }
        Form::Graded => {
            let text = long_graded(alloc, problem, settings, found, line)?;
            Ok(Output::Text(text, Status::Answered))
        }
    }
}
