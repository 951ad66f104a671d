//! What is written when a search has found a claim.

ghost use Rattle.std.specs.Prelude.{Bool, IfOk, OnOk, OnErr, true, false};
ghost use Rattle.std.specs.Io.KnownBytes.{Appends};
ghost use Rattle.byte_writer.specs.Taken.{TakesPart};
ghost use Rattle.sgf_text.specs.Text.{tree_text};
ghost use Rattle.tsumego_replies.specs.Texts.{line};
ghost use Rattle.proof_cert.specs.Certificate.{claim_of};
ghost use Rattle.cert_check.specs.Checked.{IsChecked};
ghost use Rattle.tsumego_replies.specs.Solutions.{IsWritten, MayAnswer};
ghost use Rattle.counted_devices.specs.Devices.{HasFailed};
ghost use Rattle.tsumego.specs.Outcome.{HasLeftOn};
ghost use Rattle.tsumego.specs.Private.Written.{IsSolutionOf, Writes};

use cert_check::laws::{accepts_valid_texts, valid_claims_answer};
use cert_check::{Checked, Lift, lift};
use counted_devices::Counting;
use proof_cert::laws::one_claim_of_text;
use proof_cert::{Certificate, write_cert};
use run_parts::{MAX_TURNS, Status};
use sgf_text::laws::written_reads;
use sgf_text::{Tree, WriteFault, write_bytes, write_tree};
use solution_tree::laws::{audit_is_exact, expansions_ascend};
use solution_tree::{Expand, expand, to_sgf};
use std::alloc::{AllocError, Global};
use std::io::Write;
use tsumego_problem::laws::{canonical_reads, problems_are_kept, solution_reads};
use tsumego_problem::problem_tree;
use tsumego_replies::{NO_MEMORY, TOO_LARGE};

/// What is written of a claim: the whole text, and its status.
#[derive(Drop)]
struct Said {
    status: Status,
    text: Vec<u8>,
}

/// Writes the solution record of the claim; or, as a proof, the canonical record of its problem, a line feed, and the claim. With
/// `lift`, a proof has the claim as one lemma, or as it is if it has lemmas or would pass a limit.
///
/// The whole text is made before the first byte is written, so it is never cut off because memory is refused. An answer tree of
/// more than `MAX_TURNS` turns is not written, and the text says so. After a failed write the writer has taken a front of a text
/// that may be written.
pub fn answer<W: Write>(
    alloc: Global,
    checked: &Checked,
    proof: bool,
    lift: bool,
    writer: &mut Counting<W>,
) -> Status
    ensures { HasLeftOn (MayAnswer proof lift checked.now)
        (HasFailed writer.new.faults writer.new.interrupts) result (W.contents writer.old.inner)
        (W.contents writer.new.inner) }
{
    match said_of(alloc, checked, proof, lift) {
        Ok(said) => write_text(writer, said.text.as_slice(), said.status),
        Err(_) => write_text(writer, NO_MEMORY, Status::Failed),
    }
}

/// What is written of the claim.
fn said_of(alloc: Global, checked: &Checked, proof: bool, lift: bool) -> Result<Said, AllocError>
    ensures { IfOk result (λ r. MayAnswer proof lift checked.now r.status r.text.items) }
{
    if !proof {
        return said_as_tree(alloc, checked, lift);
    }
    if lift {
        return said_as_lemma(alloc, checked);
    }
    said_as_claim(alloc, checked)
}

/// The record of the claim's answer tree. `None` if the tree has more turns than are written.
fn solution_of(alloc: Global, checked: &Checked) -> Result<Option<Tree>, AllocError>
    ensures { IfOk result (λ r. IsSolutionOf checked.now r) }
{
    match expand(alloc, checked, MAX_TURNS) {
        Ok(tree) => Ok(Some(to_sgf(alloc, checked, &tree)?)),
        Err(Expand::TooLarge) => Ok(None),
        Err(Expand::Memory) => Err(AllocError),
    }
}

/// The solution record.
fn said_as_tree(alloc: Global, checked: &Checked, lift: bool) -> Result<Said, AllocError>
    ensures { IfOk result (λ r. MayAnswer false lift checked.now r.status r.text.items) }
{
    valid_claims_answer();
    accepts_valid_texts();
    expansions_ascend();
    audit_is_exact();
    solution_reads();
    written_reads();
    problems_are_kept(checked.problem());
    let _winner = checked.winner();
    let _rows = checked.problem().size().rows();
    prove!(checked.problem().place() < checked.problem().history().len());
    let mut text = Vec::new(alloc);
    match solution_of(alloc, checked) {
        Ok(Some(tree)) => match write_line(&tree, &mut text) {
            Ok(()) => Ok(Said {
                status: Status::Answered,
                text,
            }),
            Err(_) => Err(AllocError),
        },
        Ok(None) => match text.extend_from_slice(TOO_LARGE) {
            Ok(()) => Ok(Said {
                status: Status::Unanswered,
                text,
            }),
            Err(_) => Err(AllocError),
        },
        Err(_) => Err(AllocError),
    }
}

/// The canonical record and the claim as it was found.
fn said_as_claim(alloc: Global, checked: &Checked) -> Result<Said, AllocError>
    ensures { IfOk result (λ r. MayAnswer true false checked.now r.status r.text.items) }
{
    let _winner = checked.winner();
    said_with(alloc, checked, checked.certificate())
}

/// The canonical record and the claim as one lemma, or as it was found if it has lemmas or would pass a limit.
fn said_as_lemma(alloc: Global, checked: &Checked) -> Result<Said, AllocError>
    ensures { IfOk result (λ r. MayAnswer true true checked.now r.status r.text.items) }
{
    accepts_valid_texts();
    one_claim_of_text();
    let _winner = checked.winner();
    let _rows = checked.problem().size().rows();
    match lift(alloc, checked) {
        Ok(lifted) => said_with(alloc, checked, &lifted),
        Err(Lift::HasLemmas) => said_with(alloc, checked, checked.certificate()),
        Err(Lift::Limit) => said_with(alloc, checked, checked.certificate()),
        Err(Lift::Memory) => Err(AllocError),
    }
}

/// The canonical record and this claim, which is written for the one that was found.
fn said_with(
    alloc: Global,
    checked: &Checked,
    certificate: &Certificate,
) -> Result<Said, AllocError>
    requires valid { IsChecked checked.now.problem (claim_of certificate.now) }
    ensures { (lift : Bool)
        → IsWritten lift checked.now.problem (claim_of checked.now.certificate)
        (claim_of certificate.now)
        → IfOk result (λ r. MayAnswer true lift checked.now r.status r.text.items) }
{
    accepts_valid_texts();
    canonical_reads();
    written_reads();
    problems_are_kept(checked.problem());
    let _winner = checked.winner();
    let _rows = checked.problem().size().rows();
    let Ok(tree) = problem_tree(alloc, checked.problem()) else {
        return Err(AllocError);
    };
    let mut text = Vec::new(alloc);
    if write_line(&tree, &mut text).is_err() {
        return Err(AllocError);
    }
    match write_cert(certificate, &mut text) {
        Ok(()) => Ok(Said {
            status: Status::Answered,
            text,
        }),
        Err(_) => Err(AllocError),
    }
}

/// Writes the tree and a line feed.
fn write_line<W: Write>(tree: &Tree, writer: &mut W) -> Result<(), WriteFault>
    ensures written { OnOk result
        (Appends (W.contents writer.old) (W.contents writer.new) (line (tree_text tree.now))) }
    ensures cut { OnErr result
        (TakesPart (W.contents writer.old) (W.contents writer.new) (line (tree_text tree.now))) }
{
    match write_tree(tree, writer) {
        Ok(()) => write_bytes(b"\n", writer),
        Err(fault) => Err(fault),
    }
}

/// Writes all the bytes, a piece at a time. After a failure, which the writer has counted, it has taken a front of them.
pub(crate) fn write_all<W: Write>(bytes: &[u8], writer: &mut Counting<W>) -> Result<(), WriteFault>
    ensures written { OnOk result
        (Appends (W.contents writer.old.inner) (W.contents writer.new.inner) bytes.now) }
    ensures cut { OnErr result
        (TakesPart (W.contents writer.old.inner) (W.contents writer.new.inner) bytes.now) }
    ensures failed { OnErr result (HasFailed writer.new.faults writer.new.interrupts) }
{
    let mut done: usize = 0;
    while done < bytes.len() {
        match writer.put(&bytes[done..]) {
            Ok(n) => done += n,
            Err(_) => return Err(WriteFault::Write),
        }
    }
    Ok(())
}

/// Writes the whole text. A failed write has a status of its own.
pub fn write_text<W: Write>(writer: &mut Counting<W>, text: &[u8], status: Status) -> Status
    ensures { Writes (HasFailed writer.new.faults writer.new.interrupts)
        (W.contents writer.old.inner) (W.contents writer.new.inner) text.now status result }
{
    match write_all(text, writer) {
        Ok(()) => status,
        Err(WriteFault::Write) => Status::Failed,
    }
}
