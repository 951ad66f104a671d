//! What is said of a short claim that comes after a record.

ghost use Rattle.std.specs.Prelude.{◌≡◌, ◌≢◌, IfOk};
ghost use Rattle.cert_check.specs.declared.reject.Why.TheVariants.{Memory as MemoryRefused, Read as NotRead};
ghost use Rattle.target_game.specs.State.{start};
ghost use Rattle.target_game.specs.Wins.{Wins};
ghost use Rattle.tool_parts.specs.Written.{bytes_of, end_of};
ghost use Rattle.run_parts.specs.declared.status.Status.TheVariants.{Answered};
ghost use Rattle.tsumego_replies.specs.Texts.{wins_text};
ghost use Rattle.short_proofs.specs.Says.{IsRejection, Says, SaysVerdict};
ghost use Rattle.short_proofs.specs.declared.words.Request.TheVariants.{Check};

use crate::death::judged_death;
use crate::standing::judged_answers;
use cert_check::{Reject, Why, check_short};
use go_points::{Colour, Size};
use proof_cert::ReaderSource;
use run_parts::Status;
use std::alloc::{AllocError, Global};
use std::io::Read;
use target_game::Problem;
use tool_parts::{Output, without_input};
use tsumego_problem::skip_white;
use tsumego_replies::{MAX_WHITE, White, read_past_white, reject_text, wins_text};

/// What is said of the short claim in the bytes after the record and in what the reader has after those.
pub(crate) fn judged<R: Read>(
    alloc: Global,
    problem: &Problem,
    behind: &[u8],
    reader: &mut R,
) -> Result<Output, AllocError>
    ensures { IfOk result (Says Check problem.now) }
{
    let claim = skip_white(behind);
    let white = behind.len() - claim.len();
    if white > MAX_WHITE {
        return without_input(alloc);
    }
    if !claim.is_empty() {
        return judged_claim(alloc, problem, claim, reader);
    }
    match read_past_white(reader, MAX_WHITE + 1 - white) {
        Ok(White::Before(first)) => judged_claim(alloc, problem, &[first], reader),
        Ok(White::End) => {
            let mut nothing = b"".as_slice();
            judged_claim(alloc, problem, &[], &mut nothing)
        }
        Ok(White::TooMuch) => without_input(alloc),
        Err(_) => without_input(alloc),
    }
}

/// How many bytes tell which kind of claim it is.
const KIND_BYTES: usize = 9;

/// These bytes and those after them, as many as tell which kind of claim it is; none if the input cannot be read.
fn first_bytes<R: Read>(
    alloc: Global,
    front: &[u8],
    reader: &mut R,
) -> Result<Option<Vec<u8>>, AllocError> {
    let mut bytes = Vec::new(alloc);
    bytes.extend_from_slice(front)?;
    let mut byte = [0u8; 1];
    for _ in front.len()..KIND_BYTES {
        match reader.read(&mut byte) {
            Ok(0) => return Ok(Some(bytes)),
            Ok(_) => bytes.push(byte[0])?,
            Err(_) => return Ok(None),
        }
    }
    Ok(Some(bytes))
}

/// What is said of the claim in these bytes, which may be too few to tell its kind, and in what the reader has after them.
fn judged_claim<R: Read>(
    alloc: Global,
    problem: &Problem,
    front: &[u8],
    reader: &mut R,
) -> Result<Output, AllocError>
    ensures { IfOk result (Says Check problem.now) }
{
    if front.len() >= KIND_BYTES {
        return judged_by_kind(alloc, problem, front, reader);
    }
    match first_bytes(alloc, front, reader)? {
        Some(bytes) => judged_by_kind(alloc, problem, bytes.as_slice(), reader),
        None => without_input(alloc),
    }
}

/// What is said of the claim in these bytes and in what the reader has after them, by its kind.
fn judged_by_kind<R: Read>(
    alloc: Global,
    problem: &Problem,
    front: &[u8],
    reader: &mut R,
) -> Result<Output, AllocError>
    ensures { IfOk result (Says Check problem.now) }
{
    if front.starts_with(b"tsureply ") {
        return judged_answers(alloc, problem, front, reader);
    }
    if front.starts_with(b"tsudeath ") {
        return judged_death(alloc, problem, front, reader);
    }
    judged_lines(alloc, problem, front, reader)
}

/// What is said of the lines of these bytes and of what the reader has after them.
fn judged_lines<R: Read>(
    alloc: Global,
    problem: &Problem,
    front: &[u8],
    reader: &mut R,
) -> Result<Output, AllocError>
    ensures { IfOk result (SaysVerdict problem.now) }
{
    let size = problem.size();
    let mut source = ReaderSource::of_short(size, front, reader);
    match check_short(alloc, problem, &mut source) {
        Ok(winner) => accepted(alloc, winner),
        Err(reject) => rejected(alloc, size, &reject, source.is_alive()),
    }
}

fn accepted(alloc: Global, winner: Colour) -> Result<Output, AllocError>
    ensures text { IfOk result (λ o. bytes_of o ≡ wins_text winner) }
    ensures status { IfOk result (λ o. end_of o ≡ Answered) }
{
    Ok(Output::Text(wins_text(winner).to_string(alloc)?, Status::Answered))
}

/// Why the claim is rejected; or why it was not judged.
fn rejected(
    alloc: Global,
    size: Size,
    reject: &Reject,
    is_alive: bool,
) -> Result<Output, AllocError>
    ensures { IfOk result IsRejection }
{
    match reject.why {
        Why::Memory => Err(AllocError),
        Why::Read => without_input(alloc),
        _ => rejected_line(alloc, size, reject, is_alive),
    }
}

/// Which line is rejected, and why. A line `alive` that is refused has a fault of its own, since it names no lemma.
fn rejected_line(
    alloc: Global,
    size: Size,
    reject: &Reject,
    is_alive: bool,
) -> Result<Output, AllocError>
    requires memory { reject.now.why ≢ MemoryRefused }
    requires read { reject.now.why ≢ NotRead }
    ensures { IfOk result IsRejection }
{
    if is_alive && reject.why == Why::LemmaNotLower {
        return not_alive(alloc, reject.place);
    }
    let text = reject_text(alloc, size, reject)?;
    Ok(Output::Text(text, Status::Unanswered))
}

/// That the line of this number, which says that the targets live, is refused.
fn not_alive(alloc: Global, place: u64) -> Result<Output, AllocError>
    ensures { IfOk result IsRejection }
{
    let text = format!(in alloc; "rejected line {place}: C20 not alive by shape\n")?;
    Ok(Output::Text(text, Status::Unanswered))
}
