//! What `check` says of the claim after a record.

ghost use Rattle.std.specs.Prelude.{ℕ, List, Option, IfOk, string_bytes};
ghost use Rattle.target_game.specs.State.{GameProblem};
ghost use Rattle.tsumego_replies.specs.Replies.{IsCheckedAfter, IsJudged, IsJudgedAfter, IsRejectionOf};

use crate::input::{White, read_past_white};
use crate::reply::{Failure, Reply, said};
use crate::texts::{reject_text, wins_text};
use cert_check::laws::readers_judged;
use cert_check::{Reject, Why, check};
use go_points::Size;
use proof_cert::ReaderSource;
use run_parts::Status;
use std::alloc::Global;
use std::io::Read;
use target_game::Problem;
use tsumego_problem::skip_white;

/// The greatest amount of white space between a record and a claim, in bytes.
pub const MAX_WHITE: usize = 1_048_576;

/// Judges the claim that comes after white space, in the bytes after the record and in what the reader has after those. `None` if
/// there is too much white space.
pub fn judge<R: Read>(
    alloc: Global,
    problem: &Problem,
    behind: &[u8],
    reader: &mut R,
) -> Result<Option<Reply>, Failure>
    ensures { IfOk result (λ o. IsJudged problem.now behind.now (R.remaining reader.old) o) }
{
    let claim = skip_white(behind);
    let white = behind.len() - claim.len();
    if white > MAX_WHITE {
        return Ok(None);
    }
    if !claim.is_empty() {
        return as_judged(judge_lines(alloc, problem, claim, reader));
    }
    match read_past_white(reader, MAX_WHITE + 1 - white) {
        Ok(White::Before(first)) => as_judged(judge_lines(alloc, problem, &[first], reader)),
        Ok(White::End) => {
            let mut nothing = b"".as_slice();
            as_judged(judge_lines(alloc, problem, &[], &mut nothing))
        }
        Ok(White::TooMuch) => Ok(None),
        Err(_) => Err(Failure::Read),
    }
}

fn as_judged(reply: Result<Reply, Failure>) -> Result<Option<Reply>, Failure>
    ensures { (q : GameProblem) (behind : List ℕ) (told : Option (List ℕ))
        → IfOk reply (λ r. IsCheckedAfter q behind told r.status (string_bytes r.text))
        → IfOk result (λ o. IsJudged q behind told o) }
{
    match reply {
        Ok(reply) => Ok(Some(reply)),
        Err(failure) => Err(failure),
    }
}

/// Judges the claim of these bytes and of what the reader has after them.
fn judge_lines<R: Read>(
    alloc: Global,
    problem: &Problem,
    front: &[u8],
    reader: &mut R,
) -> Result<Reply, Failure>
    ensures { IfOk result
        (λ r. IsJudgedAfter problem.now front.now (R.remaining reader.old) r.status
        (string_bytes r.text)) }
{
    readers_judged();
    let mut source = ReaderSource::new(problem.size(), front, reader);
    match check(alloc, problem, &mut source) {
        Ok(winner) => said(alloc, Status::Answered, wins_text(winner)),
        Err(reject) => rejected(alloc, problem.size(), &reject),
    }
}

/// Why the claim is rejected; or why it was not judged.
fn rejected(alloc: Global, size: Size, reject: &Reject) -> Result<Reply, Failure>
    ensures { IfOk result (λ r. IsRejectionOf size reject.now r.status (string_bytes r.text)) }
{
    match reject.why {
        Why::Memory => Err(Failure::Memory),
        Why::Read => Err(Failure::Read),
        _ => match reject_text(alloc, size, reject) {
            Ok(text) => Ok(Reply {
                status: Status::Unanswered,
                text,
            }),
            Err(_) => Err(Failure::Memory),
        },
    }
}
