//! A run of the program: from the request that its words make and its input to its answer.

ghost use Rattle.std.specs.Prelude.{◌≡◌, ◌-◌, IfOk};
ghost use Rattle.record_tools.specs.Games.{IsGame};
ghost use Rattle.record_marks.specs.Asked.{IsMarkedFor};
ghost use Rattle.record_marks.specs.Supposed.{IsMarkedBy};
ghost use Rattle.record_tools.specs.Outputs.{AnswersRecord, IsAlone, IsMarkedIn, IsOutput, IsWritten, IsZone};
ghost use Rattle.tool_parts.specs.Answered.{HasAnswered, IsAnswered};
ghost use Rattle.tool_parts.specs.Written.{end_of};
ghost use Rattle.run_parts.specs.declared.status.Status.TheVariants.{Answered};

use crate::bare::bare_record;
use crate::games::game;
use crate::refusals::{no_mark, no_page, no_picture};
use crate::split::split_into;
use crate::told::{tell_past, tell_region, tell_stones};
use crate::words::{PageForm, Request, Zone};
use record_marks::{Marks, Region, Supposition, marked_record, supposed_record};
use record_pages::{Cut, page_json, page_of};
use record_pictures::{Look, View, ascii, drawing_of, svg};
use run_parts::Status;
use sgf_text::{SgfFault, Tree, read_tree};
use std::alloc::{AllocError, Global};
use std::io::{Read, Write};
use std::rt::Files;
use target_game::Problem;
use tool_parts::{
    NoRequest, Output, read_whole, refused_tree, without_input, without_request, write_output,
};

/// Runs the program for what its words ask for, if they ask for something. What is said besides the answer goes to `notes`, and the
/// trees of a file that is split go to `files`.
///
/// If the run is answered, the writer has taken the whole output for this request and for the bytes that the reader tells.
pub fn run<F: Files, R: Read, W: Write, N: Write>(
    alloc: Global,
    files: &F,
    request: Result<Request, NoRequest>,
    reader: &mut R,
    writer: &mut W,
    notes: &mut N,
) -> Status
    ensures { result ≡ Answered → HasAnswered IsOutput request (R.remaining reader.old)
        (W.contents writer.old) (W.contents writer.new) }
{
    write_output(writer, output(alloc, files, request, reader, notes))
}

/// What is written for the request and the input.
#[tactic(auto, using(tool_parts::proofs::Answering::all_read, tool_parts::proofs::Answering::not_answered, tool_parts::proofs::Answering::output_answered))]
fn output<F: Files, R: Read, N: Write>(
    alloc: Global,
    files: &F,
    request: Result<Request, NoRequest>,
    reader: &mut R,
    notes: &mut N,
) -> Result<Output, AllocError>
    ensures { IfOk result (λ o. end_of o ≡ Answered
        → IsAnswered IsOutput request (R.remaining reader.old) o) }
{
    let request = match request {
        Ok(request) => request,
        Err(none) => return without_request(none),
    };
    let mut bytes = Vec::new(alloc);
    if !read_whole(reader, &mut bytes)? {
        return without_input(alloc);
    }
    output_of(alloc, files, &request, bytes.as_slice(), notes)
}

/// What is written for what is asked for and these bytes.
#[tactic(auto, using(crate::proofs::Outputs::asked_for, crate::proofs::Outputs::unsaid))]
fn output_of<F: Files, N: Write>(
    alloc: Global,
    files: &F,
    request: &Request,
    bytes: &[u8],
    notes: &mut N,
) -> Result<Output, AllocError>
    ensures { IfOk result (λ o. IsOutput request.now bytes.now o) }
{
    match request {
        Request::Split { number } => output_game(alloc, *number, bytes),
        Request::SplitInto { folder } => split_into(alloc, files, folder.as_str(), bytes, notes),
        Request::Mark {
            node,
            targets,
            zone,
            mover,
            is_bare,
        } => {
            let wanted = Marks {
                node: *node,
                targets: targets.as_bytes(),
                region: region_of(zone),
                mover: *mover,
            };
            output_mark(alloc, wanted, zone, *is_bare, bytes, notes)
        }
        Request::Page { cut, form } => output_page(alloc, *cut, *form, bytes),
        Request::Picture {
            view,
            look,
            caption,
            ascii,
        } => {
            let picture = Picture {
                view: *view,
                look: *look,
                is_ascii: *ascii,
            };
            output_picture(alloc, picture, caption.as_str(), bytes)
        }
    }
}

/// The tree with this number, from 1, or why there is none.
fn output_game(alloc: Global, number: usize, bytes: &[u8]) -> Result<Output, AllocError>
    ensures { IfOk result (AnswersRecord (IsGame (number - 1) bytes.now)) }
{
    match game(alloc, bytes, number.saturating_sub(1)) {
        Ok(tree) => Ok(Output::Record(tree)),
        Err(fault) => refused_tree(alloc, fault),
    }
}

/// The record of these bytes with the marks, or why there is none.
fn output_mark<N: Write>(
    alloc: Global,
    wanted: Marks<'_>,
    zone: &Zone,
    is_bare: bool,
    bytes: &[u8],
    notes: &mut N,
) -> Result<Output, AllocError>
    ensures { IfOk result (AnswersRecord (IsWritten (IsMarkedIn zone.now wanted.entry) wanted.entry.node is_bare
        bytes.now)) }
{
    match zone {
        Zone::Proposed => output_marked(alloc, wanted, is_bare, bytes, notes),
        Zone::Board => output_marked(alloc, wanted, is_bare, bytes, notes),
        Zone::Points(_) => output_marked(alloc, wanted, is_bare, bytes, notes),
        Zone::Count(count, walls, shut) => {
            let supposition = Supposition {
                count: *count,
                walls: *walls,
                shut: shut.as_bytes(),
            };
            output_supposed(alloc, wanted, supposition, is_bare, bytes, notes)
        }
    }
}

/// The region of the marks as they are named. With a number of empty points it is found later.
fn region_of<'a>(zone: &'a Zone) -> Region<'a>
    ensures { IsZone zone.now result }
{
    match zone {
        Zone::Proposed => Region::Proposed,
        Zone::Board => Region::Board,
        Zone::Points(text) => Region::Points(text.as_bytes()),
        Zone::Count(_, _, _) => Region::Board,
    }
}

/// The record of these bytes with the marks, or why there is none. A wide region is reported on `notes`.
fn output_marked<N: Write>(
    alloc: Global,
    wanted: Marks<'_>,
    is_bare: bool,
    bytes: &[u8],
    notes: &mut N,
) -> Result<Output, AllocError>
    ensures { IfOk result (AnswersRecord (IsWritten (IsMarkedFor wanted.entry) wanted.entry.node is_bare bytes.now)) }
{
    let tree = match read_tree(alloc, bytes) {
        Ok((tree, _end)) => tree,
        Err(fault) => return refused_tree(alloc, fault),
    };
    match marked_record(alloc, &tree, wanted) {
        Ok(marked) => {
            tell_region(alloc, &marked.problem, notes)?;
            if is_bare {
                return output_bare(alloc, &marked.problem, &tree, notes);
            }
            Ok(Output::Record(marked.tree))
        }
        Err(refusal) => no_mark(alloc, refusal),
    }
}

/// The record of the problem's position alone. If a position of the game may come back, that is reported on `notes`.
fn output_bare<N: Write>(
    alloc: Global,
    problem: &Problem,
    titled: &Tree,
    notes: &mut N,
) -> Result<Output, AllocError>
    ensures { IfOk result (AnswersRecord (IsAlone problem.now)) }
{
    match bare_record(alloc, problem, titled) {
        Ok(bare) => {
            if bare.is_another {
                tell_past(notes);
            }
            Ok(Output::Record(bare.tree))
        }
        Err(refusal) => no_mark(alloc, refusal),
    }
}

/// Like `output_marked`, for a region of this many empty points. The places where stones are placed are reported on `notes` too.
fn output_supposed<N: Write>(
    alloc: Global,
    wanted: Marks<'_>,
    supposition: Supposition<'_>,
    is_bare: bool,
    bytes: &[u8],
    notes: &mut N,
) -> Result<Output, AllocError>
    ensures { IfOk result (AnswersRecord (IsWritten (IsMarkedBy wanted.entry) wanted.entry.node is_bare bytes.now)) }
{
    let tree = match read_tree(alloc, bytes) {
        Ok((tree, _end)) => tree,
        Err(fault) => return refused_tree(alloc, fault),
    };
    match supposed_record(alloc, &tree, wanted, supposition) {
        Ok(made) => {
            tell_stones(alloc, made.problem.size(), &made.black, &made.white, notes)?;
            tell_region(alloc, &made.problem, notes)?;
            if is_bare {
                return output_bare(alloc, &made.problem, &tree, notes);
            }
            Ok(Output::Record(made.tree))
        }
        Err(refusal) => no_mark(alloc, refusal),
    }
}

/// The page of the first record of these bytes, or its data, with the titles and comments of a second.
fn output_page(
    alloc: Global,
    cut: Cut,
    form: PageForm,
    bytes: &[u8],
) -> Result<Output, AllocError> {
    let answer = match game(alloc, bytes, 0) {
        Ok(tree) => tree,
        Err(fault) => return refused_tree(alloc, fault),
    };
    match game(alloc, bytes, 1) {
        Ok(original) => paged(alloc, &answer, Some(&original), cut, form),
        Err(SgfFault::NoTree) => paged(alloc, &answer, None, cut, form),
        Err(fault) => refused_tree(alloc, fault),
    }
}

/// The page, or why there is none.
fn paged(
    alloc: Global,
    answer: &Tree,
    original: Option<&Tree>,
    cut: Cut,
    form: PageForm,
) -> Result<Output, AllocError> {
    match form {
        PageForm::Json { shows_unaudited } => {
            match page_json(alloc, answer, original, cut, shows_unaudited) {
                Ok(text) => Ok(Output::Text(text, Status::Answered)),
                Err(refusal) => no_page(alloc, refusal),
            }
        }
        PageForm::Record { keeps_past } => {
            match page_of(alloc, answer, original, cut, keeps_past) {
                Ok(page) => Ok(Output::Record(page.tree)),
                Err(refusal) => no_page(alloc, refusal),
            }
        }
    }
}

/// A picture that is asked for, apart from its caption.
#[derive(Clone, Copy)]
struct Picture {
    view: View,
    look: Look,
    is_ascii: bool,
}

/// The picture of the first record of these bytes, or why there is none.
fn output_picture(
    alloc: Global,
    picture: Picture,
    caption: &str,
    bytes: &[u8],
) -> Result<Output, AllocError> {
    let tree = match read_tree(alloc, bytes) {
        Ok((tree, _end)) => tree,
        Err(fault) => return refused_tree(alloc, fault),
    };
    let drawing = match drawing_of(alloc, &tree, picture.view, caption) {
        Ok(drawing) => drawing,
        Err(refusal) => return no_picture(alloc, refusal),
    };
    let text = if picture.is_ascii {
        ascii(alloc, &drawing)?
    } else {
        svg(alloc, &drawing, picture.look)?
    };
    Ok(Output::Text(text, Status::Answered))
}
