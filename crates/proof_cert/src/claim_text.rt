//! The text of a claim.

ghost use Rattle.std.specs.Prelude.{◌≡◌, ℕ, ◌↔◌, IsTrue, IsSomeAnd, OnOk, OnErr, Err, None, Some, map};
ghost use Rattle.std.specs.List.{list_all};
ghost use Rattle.std.specs.Io.KnownBytes.{Appends};
ghost use Rattle.proof_cert.specs.Lines.{node_lines, branch_lines, lemma_lines, lemmas_lines, lines_of, had_spelled, not_line, use_line};
ghost use Rattle.proof_cert.specs.Stage.{version_number};
ghost use Rattle.proof_cert.specs.Text.{is_spelled, is_spelled_number, text};
ghost use Rattle.proof_cert.specs.Certificate.{node_of, replies_of, lemma_of, claim_of};
ghost use Rattle.byte_writer.specs.Taken.{HasPut, TakesPart};
ghost use Rattle.proof_cert.specs.Private.Taken.{line_text, lines_text};

use crate::certificate::{Certificate, Lemma, Node};
use crate::line_text::{
    put_had, put_header, put_lemma_line, put_not, put_number, put_turn, put_word,
};
use crate::spelled::is_spelled_claim;
use crate::spelling::Spelling;
use crate::version::Version;
use crate::write::CertWrite;
use byte_writer::{PendingBytes, WriteFault};
use go_points::{Colouring, Size, Turn};
use std::io::Write;

/// Writes the claim's text.
///
/// It allocates no memory. A claim that has no spelling is refused before the first byte is written. After a failed write the
/// writer has taken a front of the text and nothing else.
pub fn write_cert<W: Write>(certificate: &Certificate, writer: &mut W) -> Result<(), CertWrite>
    ensures unspelled { (result ≡ Err CertWrite.NoSpelling)
        ↔ (text (claim_of certificate.now) ≡ None) }
    ensures untouched { result ≡ Err CertWrite.NoSpelling
        → W.contents writer.new ≡ W.contents writer.old }
    ensures written { OnOk result
        (IsSomeAnd (text (claim_of certificate.now))
        (λ bytes. Appends (W.contents writer.old) (W.contents writer.new) bytes)) }
    ensures cut { result ≡ Err CertWrite.Write
        → IsSomeAnd (text (claim_of certificate.now))
        (λ bytes. TakesPart (W.contents writer.old) (W.contents writer.new) bytes) }
{
    if !is_spelled_claim(certificate) {
        return Err(CertWrite::NoSpelling);
    }
    match write_spelled(certificate, writer) {
        Ok(()) => Ok(()),
        Err(WriteFault::Write) => Err(CertWrite::Write),
    }
}

fn write_spelled<W: Write>(certificate: &Certificate, writer: &mut W) -> Result<(), WriteFault>
    requires { IsTrue (list_all (is_spelled certificate.now.size)
        (lines_of (claim_of certificate.now))) }
    ensures written { OnOk result
        (Appends (W.contents writer.old) (W.contents writer.new)
        (lines_text certificate.now.size (lines_of (claim_of certificate.now)))) }
    ensures cut { OnErr result
        (TakesPart (W.contents writer.old) (W.contents writer.new)
        (lines_text certificate.now.size (lines_of (claim_of certificate.now)))) }
{
    let mut pending = PendingBytes::new();
    put_claim(certificate, &mut pending, writer);
    pending.finish(writer)
}

fn put_claim<W: Write>(certificate: &Certificate, pending: &mut PendingBytes, writer: &mut W)
    requires { IsTrue (list_all (is_spelled certificate.now.size)
        (lines_of (claim_of certificate.now))) }
    ensures { HasPut (W.contents writer.old) (W.contents writer.new) pending.old pending.new
        (lines_text certificate.now.size (lines_of (claim_of certificate.now))) }
{
    let size = certificate.size;
    let version = certificate.version;
    put_header(version, size, certificate.winner, pending, writer);
    put_lemmas(
        version,
        size,
        certificate.lemmas.as_slice(),
        pending,
        writer,
    );
    put_word(b"main", pending, writer);
    put_node(Spelling::Ordinary, size, &certificate.main, pending, writer);
    put_word(b"end", pending, writer);
}

fn put_lemmas<W: Write>(
    version: Version,
    size: Size,
    lemmas: &[Lemma],
    pending: &mut PendingBytes,
    writer: &mut W,
)
    requires { IsTrue (list_all (is_spelled size)
        (lemmas_lines (version_number version) (map (lemma_of size) lemmas.now))) }
    ensures { HasPut (W.contents writer.old) (W.contents writer.new) pending.old pending.new
        (lines_text size (lemmas_lines (version_number version) (map (lemma_of size) lemmas.now))) }
{
    for lemma in lemmas {
        put_lemma(version, size, lemma, pending, writer);
    }
}

fn put_lemma<W: Write>(
    version: Version,
    size: Size,
    lemma: &Lemma,
    pending: &mut PendingBytes,
    writer: &mut W,
)
    requires { IsTrue (list_all (is_spelled size)
        (lemma_lines (version_number version) (lemma_of size lemma.now))) }
    ensures { HasPut (W.contents writer.old) (W.contents writer.new) pending.old pending.new
        (lines_text size (lemma_lines (version_number version) (lemma_of size lemma.now))) }
{
    put_lemma_line(size, lemma, pending, writer);
    put_all_had(version, size, lemma.had.as_slice(), pending, writer);
    put_listed(size, lemma.absent.as_slice(), pending, writer);
    put_node(Spelling::Ordinary, size, &lemma.body, pending, writer);
    put_word(b"end", pending, writer);
}

pub(crate) fn put_all_had<W: Write>(
    version: Version,
    size: Size,
    had: &[Colouring],
    pending: &mut PendingBytes,
    writer: &mut W,
)
    ensures { HasPut (W.contents writer.old) (W.contents writer.new) pending.old pending.new
        (lines_text size (map (had_spelled (version_number version)) had.now)) }
{
    for colouring in had {
        put_had(version, size, colouring, pending, writer);
    }
}

pub(crate) fn put_listed<W: Write>(
    size: Size,
    listed: &[Colouring],
    pending: &mut PendingBytes,
    writer: &mut W,
)
    ensures { HasPut (W.contents writer.old) (W.contents writer.new) pending.old pending.new
        (lines_text size (map (λ c. Some (not_line c)) listed.now)) }
{
    for colouring in listed {
        put_not(size, colouring, pending, writer);
    }
}

/// Puts the line that uses the lemma of this number; that of number 0 is the theorem, which a short claim may use.
fn put_use<W: Write>(spelling: Spelling, lemma: u32, pending: &mut PendingBytes, writer: &mut W)
    ensures { (n : ℕ) → IsTrue (is_spelled_number lemma)
        → HasPut (W.contents writer.old) (W.contents writer.new) pending.old pending.new
        (line_text n (Some (use_line lemma))) }
{
    if spelling == Spelling::Short && lemma == 0 {
        put_word(b"alive", pending, writer);
    } else {
        put_number(b"use ", lemma as usize, pending, writer);
    }
}

#[cycle(put)]
pub(crate) fn put_node<W: Write>(
    spelling: Spelling,
    size: Size,
    node: &Node,
    pending: &mut PendingBytes,
    writer: &mut W,
)
    ensures { IsTrue (list_all (is_spelled size) (node_lines (node_of size node.now)))
        → HasPut (W.contents writer.old) (W.contents writer.new) pending.old pending.new
        (lines_text size (node_lines (node_of size node.now))) }
{
    match node {
        Node::Won => put_word(b"won", pending, writer),
        Node::Use(lemma) => put_use(spelling, *lemma, pending, writer),
        Node::Play(turn, below) => {
            put_turn(b"play ", size, *turn, pending, writer);
            put_node(spelling, size, below, pending, writer);
        }
        Node::All(replies) => {
            put_number(b"all ", replies.len(), pending, writer);
            put_replies(spelling, size, replies.as_slice(), pending, writer);
        }
    }
}

#[cycle(put)]
fn put_replies<W: Write>(
    spelling: Spelling,
    size: Size,
    replies: &[(Turn, Node)],
    pending: &mut PendingBytes,
    writer: &mut W,
)
    ensures { IsTrue (list_all (is_spelled size) (branch_lines (replies_of size replies.now)))
        → HasPut (W.contents writer.old) (W.contents writer.new) pending.old pending.new
        (lines_text size (branch_lines (replies_of size replies.now))) }
{
    for (turn, below) in replies {
        put_turn(b"reply ", size, *turn, pending, writer);
        put_node(spelling, size, below, pending, writer);
    }
}
