//! Whole claims, read from their bytes.

ghost use Rattle.std.specs.Prelude.{◌≡◌, ◌+◌, ◌≤◌, ◌⊎◌, ◌↔◌, ℕ, IfOk, IfErr, IfSome, Some, Err, length, map, option_map, true};
ghost use Rattle.proof_cert.specs.Claim.{Claim, IsWithinLimits, max_depth, max_lemmas, max_listed};
ghost use Rattle.proof_cert.specs.Text.{text};
ghost use Rattle.proof_cert.specs.Stage.{line_value};
ghost use Rattle.proof_cert.specs.Certificate.{node_of, lemma_of, claim_of};
ghost use Rattle.proof_cert.specs.Private.Reading.{with_rest, left_of, picks, list_read, lists_read, listed_value, lists_value, body_read, lemma_read, all_lemmas_read, claim_read, CountsTree, CountsListed, CountsLemma, CountsLemmas};

use crate::certificate::{Certificate, Lemma, Node};
use crate::claim_text::write_cert;
use crate::limits::{MAX_DEPTH, MAX_LEMMAS, MAX_LISTED};
use crate::line::Line;
use crate::line_cursor::{LineCursor, next_line};
use crate::source::{SourceFault, TextSource};
use crate::tree_reading::read_tree;
use crate::version::Version;
use crate::write::CertWrite;
use go_points::{Colour, Colouring, Size};
use std::alloc::{AllocError, Global};

/// One of a lemma's two lists: the colourings that must have occurred, or those that must not have.
#[derive(Clone, Copy)]
pub(crate) enum Listing {
    Had,
    Not,
}

/// The colouring of a line of the list.
fn listed_of(listing: Listing, line: &Line) -> Option<Colouring>
    ensures { (n : ℕ) → result ≡ picks listing (line_value n line.now) }
{
    match (listing, line) {
        (Listing::Had, Line::Had(colouring)) => Some(*colouring),
        (Listing::Not, Line::Not(colouring)) => Some(*colouring),
        _ => None,
    }
}

/// The listed colourings, whose first line is given, and the line after them.
fn read_listed(
    alloc: Global,
    reading: &mut LineCursor<'_>,
    listing: Listing,
    first: Line,
) -> Result<Option<(Vec<Colouring>, Line)>, AllocError>
    ensures read { IfOk result
        (λ read. with_rest (listed_value reading.old.source.size) read
        (left_of reading.new.source reading.new.nodes reading.new.listed)
        ≡ list_read (picks listing) (line_value reading.old.source.size first)
        (left_of reading.old.source reading.old.nodes reading.old.listed)) }
    ensures counted { IfOk result
        (λ read. IfSome read (λ found. CountsListed reading.old.nodes reading.old.listed
        (length found.0.items) reading.new.nodes reading.new.listed)) }
    ensures size { reading.new.source.size ≡ reading.old.source.size }
{
    let mut listed = Vec::new(alloc);
    let mut line = first;
    while reading.listed <= MAX_LISTED {
        let Some(colouring) = listed_of(listing, &line) else {
            return Ok(Some((listed, line)));
        };
        reading.listed += 1;
        listed.push(colouring)?;
        let Some(next) = next_line(reading) else {
            return Ok(None);
        };
        line = next;
    }
    Ok(None)
}

/// Both lists of a lemma, whose first line is given, and the line after them.
#[tactic(auto, unfolding(crate::specs::Private::Reading::lists_read))]
fn read_lists(
    alloc: Global,
    reading: &mut LineCursor<'_>,
    first: Line,
) -> Result<Option<((Vec<Colouring>, Vec<Colouring>), Line)>, AllocError>
    ensures read { IfOk result
        (λ read. with_rest (lists_value reading.old.source.size) read
        (left_of reading.new.source reading.new.nodes reading.new.listed)
        ≡ lists_read (line_value reading.old.source.size first)
        (left_of reading.old.source reading.old.nodes reading.old.listed)) }
    ensures counted { IfOk result
        (λ read. IfSome read (λ found. CountsListed reading.old.nodes reading.old.listed
        (length found.0.0.items + length found.0.1.items) reading.new.nodes
        reading.new.listed)) }
    ensures size { reading.new.source.size ≡ reading.old.source.size }
{
    let Some((had, line)) = read_listed(alloc, reading, Listing::Had, first)? else {
        return Ok(None);
    };
    let Some((absent, line)) = read_listed(alloc, reading, Listing::Not, line)? else {
        return Ok(None);
    };
    Ok(Some(((had, absent), line)))
}

/// The tree that has this first line, with its `end`.
#[tactic(auto, unfolding(crate::specs::Private::Reading::body_read))]
fn read_body(
    alloc: Global,
    reading: &mut LineCursor<'_>,
    first: &Line,
) -> Result<Option<Node>, AllocError>
    ensures read { IfOk result
        (λ read. with_rest (node_of reading.old.source.size) read
        (left_of reading.new.source reading.new.nodes reading.new.listed)
        ≡ body_read (line_value reading.old.source.size first.now)
        (left_of reading.old.source reading.old.nodes reading.old.listed)) }
    ensures counted { IfOk result
        (λ read. IfSome read (λ tree. CountsTree max_depth reading.old.nodes reading.old.listed
        (node_of reading.old.source.size tree) reading.new.nodes reading.new.listed)) }
    ensures size { reading.new.source.size ≡ reading.old.source.size }
{
    let Some(tree) = read_tree(alloc, reading, first, MAX_DEPTH)? else {
        return Ok(None);
    };
    match next_line(reading) {
        Some(_) => Ok(Some(tree)),
        None => Ok(None),
    }
}

/// A lemma after its first line.
#[tactic(auto, unfolding(crate::specs::Private::Reading::lemma_read))]
fn read_lemma(
    alloc: Global,
    reading: &mut LineCursor<'_>,
    mover: Colour,
    passes: u8,
    root: Colouring,
) -> Result<Option<Lemma>, AllocError>
    ensures read { IfOk result
        (λ read. with_rest (lemma_of reading.old.source.size) read
        (left_of reading.new.source reading.new.nodes reading.new.listed)
        ≡ lemma_read mover passes root
        (left_of reading.old.source reading.old.nodes reading.old.listed)) }
    ensures counted { IfOk result
        (λ read. IfSome read (λ lemma. CountsLemma reading.old.nodes reading.old.listed
        (lemma_of reading.old.source.size lemma) reading.new.nodes reading.new.listed)) }
    ensures size { reading.new.source.size ≡ reading.old.source.size }
{
    let Some(first) = next_line(reading) else {
        return Ok(None);
    };
    let Some(((had, absent), line)) = read_lists(alloc, reading, first)? else {
        return Ok(None);
    };
    let Some(body) = read_body(alloc, reading, &line)? else {
        return Ok(None);
    };
    Ok(Some(Lemma {
        mover,
        passes,
        root,
        had,
        absent,
        body,
    }))
}

/// The lemmas up to the line `main`.
fn read_lemmas(
    alloc: Global,
    reading: &mut LineCursor<'_>,
) -> Result<Option<Vec<Lemma>>, AllocError>
    requires { reading.old.listed ≤ max_listed }
    ensures read { IfOk result
        (λ read. with_rest (λ lemmas. map (lemma_of reading.old.source.size) lemmas.items) read
        (left_of reading.new.source reading.new.nodes reading.new.listed)
        ≡ all_lemmas_read (left_of reading.old.source reading.old.nodes reading.old.listed)) }
    ensures counted { IfOk result
        (λ read. IfSome read (λ lemmas. CountsLemmas reading.old.nodes reading.old.listed
        (map (lemma_of reading.old.source.size) lemmas.items) reading.new.nodes
        reading.new.listed)) }
    ensures count { IfOk result (λ read. IfSome read (λ lemmas. length lemmas.items ≤ max_lemmas)) }
    ensures size { reading.new.source.size ≡ reading.old.source.size }
{
    let mut lemmas = Vec::new(alloc);
    while lemmas.len() <= MAX_LEMMAS {
        let Some(line) = next_line(reading) else {
            return Ok(None);
        };
        match &line {
            Line::Main => return Ok(Some(lemmas)),
            Line::Lemma {
                mover,
                passes,
                root,
            } => {
                let Some(lemma) = read_lemma(alloc, reading, *mover, *passes, *root)? else {
                    return Ok(None);
                };
                lemmas.push(lemma)?;
            }
            _ => return Ok(None),
        }
    }
    Ok(None)
}

/// A whole claim, which more may follow.
#[tactic(auto, unfolding(crate::specs::Private::Reading::claim_read, crate::specs::Private::Reading::line_as))]
fn read_claim(
    alloc: Global,
    size: Size,
    reading: &mut LineCursor<'_>,
) -> Result<Option<Certificate>, AllocError>
    requires size { reading.old.source.size ≡ size }
    requires counts { (reading.old.nodes ≡ 0) × (reading.old.listed ≡ 0) }
    ensures read { IfOk result
        (λ read. option_map claim_of read
        ≡ claim_read size (left_of reading.old.source reading.old.nodes reading.old.listed)) }
    ensures within { IfOk result
        (λ read. IfSome read (λ certificate. IsWithinLimits (claim_of certificate))) }
    ensures size { IfOk result (λ read. IfSome read (λ certificate. certificate.size ≡ size)) }
{
    let Some(
        Line::Header {
            version,
            winner,
            ..
        },
    ) = next_line(reading)
    else {
        return Ok(None);
    };
    let Some(lemmas) = read_lemmas(alloc, reading)? else {
        return Ok(None);
    };
    let Some(line) = next_line(reading) else {
        return Ok(None);
    };
    let Some(main) = read_body(alloc, reading, &line)? else {
        return Ok(None);
    };
    Ok(Some(Certificate {
        version,
        size,
        winner,
        lemmas,
        main,
    }))
}

/// Whether the bytes are the claim's text. The text is written to find out, since the functions above accept other texts too.
fn has_text(alloc: Global, certificate: &Certificate, bytes: &[u8]) -> Result<bool, AllocError>
    ensures { IfOk result (λ same. (same ≡ true)
        ↔ (text (claim_of certificate.now) ≡ Some bytes.now)) }
{
    let mut written = Vec::new(alloc);
    match write_cert(certificate, &mut written) {
        Ok(()) => Ok(written.as_slice() == bytes),
        Err(CertWrite::NoSpelling) => Ok(false),
        Err(CertWrite::Write) => Err(AllocError),
    }
}

/// Reads the certificate whose text the bytes are, for a board of this size.
///
/// It fails with `Malformed` if no claim of this size within the limits has that text, and with `Memory` if memory is refused. Each
/// claim has at most one text, so what is read is the only such claim.
pub fn read_cert(alloc: Global, size: Size, bytes: &[u8]) -> Result<Certificate, SourceFault>
    ensures text { IfOk result (λ certificate. text (claim_of certificate) ≡ Some bytes.now) }
    ensures size { IfOk result (λ certificate. certificate.size ≡ size) }
    ensures within { IfOk result (λ certificate. IsWithinLimits (claim_of certificate)) }
    ensures malformed { result ≡ Err SourceFault.Malformed → (z : Claim) → z.size ≡ size
        → text z ≡ Some bytes.now → ¬ IsWithinLimits z }
    ensures fault { IfErr result (λ fault. (fault ≡ SourceFault.Malformed)
        ⊎ (fault ≡ SourceFault.Memory)) }
{
    let mut reading = LineCursor {
        source: TextSource::new(size, bytes),
        nodes: 0,
        listed: 0,
    };
    match read_claim(alloc, size, &mut reading) {
        Ok(Some(certificate)) => match has_text(alloc, &certificate, bytes) {
            Ok(true) => Ok(certificate),
            Ok(false) => Err(SourceFault::Malformed),
            Err(_) => Err(SourceFault::Memory),
        },
        Ok(None) => Err(SourceFault::Malformed),
        Err(_) => Err(SourceFault::Memory),
    }
}
