//! Whether lines have a spelling.

ghost use Rattle.std.specs.Prelude.{◌≡◌, ◌*◌, length, map, Some, nat_eq};
ghost use Rattle.std.specs.List.{list_all};
ghost use Rattle.go_points.specs.Ply.{ply_of};
ghost use Rattle.proof_cert.specs.Lines.{turn_fits, node_lines, branch_lines, lemma_lines, lemmas_lines, lines_of, had_spelled, not_line};
ghost use Rattle.proof_cert.specs.Private.Body.{body_value};
ghost use Rattle.proof_cert.specs.Text.{is_spelled};
ghost use Rattle.proof_cert.specs.Text.{is_spelled_number as number_test};
ghost use Rattle.proof_cert.specs.Stage.{line_value, version_number};
ghost use Rattle.proof_cert.specs.Certificate.{node_of, replies_of, lemma_of, claim_of};

use crate::body_line::BodyLine;
use crate::certificate::{Certificate, Lemma, Node};
use crate::line::Line;
use crate::version::Version;
use go_points::{Colouring, Size, Turn};

/// The first number that has more than 8 digits.
const TOO_LONG: usize = 100_000_000;

/// Whether a line can hold the number.
pub(crate) fn is_spelled_number(number: usize) -> bool
    ensures { result ≡ number_test number }
{
    1 <= number && number < TOO_LONG
}

/// Whether the board has the turn.
pub(crate) fn is_turn_on(size: Size, turn: Turn) -> bool
    ensures { result ≡ turn_fits size (ply_of size turn) }
{
    match turn {
        Turn::Pass => true,
        Turn::At(point) => size.holds(point),
    }
}

/// Whether the colouring is of this size.
pub(crate) fn is_of_size(size: Size, colouring: &Colouring) -> bool
    ensures { result ≡ nat_eq (length colouring.now) (size * size) }
{
    colouring.size() == size
}

/// Whether the line has a spelling on a board of this size.
pub(crate) fn is_spelled_line(size: Size, line: &Line) -> bool
    ensures { result ≡ is_spelled size (Some (line_value size line.now)) }
{
    match line {
        Line::Header {
            version: _,
            size,
            winner: _,
        } => is_spelled_number(*size as usize),
        Line::Lemma {
            mover: _,
            passes,
            root,
        } => *passes <= 1 && is_of_size(size, root),
        Line::Had(colouring) => is_of_size(size, colouring),
        Line::Not(colouring) => is_of_size(size, colouring),
        Line::Use(lemma) => is_spelled_number(*lemma as usize),
        Line::Play(turn) => is_turn_on(size, *turn),
        Line::All(replies) => is_spelled_number(*replies as usize),
        Line::Reply(turn) => is_turn_on(size, *turn),
        _ => true,
    }
}

/// Whether the line of a body has a spelling on a board of this size.
pub(crate) fn is_spelled_body_line(size: Size, line: &BodyLine) -> bool
    ensures { result ≡ is_spelled size (Some (body_value size line.now)) }
{
    match line {
        BodyLine::Use(lemma) => is_spelled_number(*lemma as usize),
        BodyLine::Play(turn) => is_turn_on(size, *turn),
        BodyLine::All(replies) => is_spelled_number(*replies as usize),
        BodyLine::Reply(turn) => is_turn_on(size, *turn),
        _ => true,
    }
}

/// Whether the lines of the tree have a spelling.
#[cycle(spelled)]
#[tactic(auto, using(crate::proofs::Certificates::node_of_won, crate::proofs::Certificates::node_of_use, crate::proofs::Certificates::node_of_play, crate::proofs::Certificates::node_of_all, crate::proofs::Certificates::replies_counted))]
fn is_spelled_node(size: Size, node: &Node) -> bool
    ensures { result ≡ list_all (is_spelled size) (node_lines (node_of size node.now)) }
{
    match node {
        Node::Won => true,
        Node::Use(lemma) => is_spelled_number(*lemma as usize),
        Node::Play(turn, below) => is_turn_on(size, *turn) && is_spelled_node(size, below),
        Node::All(replies) => {
            is_spelled_number(replies.len()) && are_spelled_replies(size, replies.as_slice())
        }
    }
}

/// Whether the lines of the replies have a spelling.
#[cycle(spelled)]
fn are_spelled_replies(size: Size, replies: &[(Turn, Node)]) -> bool
    ensures { result ≡ list_all (is_spelled size) (branch_lines (replies_of size replies.now)) }
{
    for (turn, below) in replies {
        if !is_turn_on(size, *turn) || !is_spelled_node(size, below) {
            return false;
        }
    }
    true
}

/// Whether the lines of the listed colourings have a spelling.
fn are_spelled_colourings(size: Size, listed: &[Colouring]) -> bool
    ensures { result ≡ list_all (is_spelled size) (map (λ c. Some (not_line c)) listed.now) }
{
    for colouring in listed {
        if !is_of_size(size, colouring) {
            return false;
        }
    }
    true
}

/// Whether the `had` line of the colouring has a spelling in a claim of this version.
fn is_spelled_had(version: Version, size: Size, colouring: &Colouring) -> bool
    ensures { result ≡ is_spelled size (had_spelled (version_number version) colouring.now) }
{
    match version {
        Version::One => false,
        Version::Two => is_of_size(size, colouring),
    }
}

/// Whether the lines of the colourings that must have occurred have a spelling.
fn are_spelled_had(version: Version, size: Size, had: &[Colouring]) -> bool
    ensures { result ≡ list_all (is_spelled size)
        (map (had_spelled (version_number version)) had.now) }
{
    for colouring in had {
        if !is_spelled_had(version, size, colouring) {
            return false;
        }
    }
    true
}

/// Whether the lines of the lemma have a spelling.
#[tactic(auto, using(crate::proofs::Certificates::list_all_joined))]
fn is_spelled_lemma(version: Version, size: Size, lemma: &Lemma) -> bool
    ensures { result ≡ list_all (is_spelled size)
        (lemma_lines (version_number version) (lemma_of size lemma.now)) }
{
    lemma.passes <= 1
        && is_of_size(size, &lemma.root)
        && are_spelled_had(version, size, lemma.had.as_slice())
        && are_spelled_colourings(size, lemma.absent.as_slice())
        && is_spelled_node(size, &lemma.body)
}

/// Whether the lines of the lemmas have a spelling.
fn are_spelled_lemmas(version: Version, size: Size, lemmas: &[Lemma]) -> bool
    ensures { result ≡ list_all (is_spelled size)
        (lemmas_lines (version_number version) (map (lemma_of size) lemmas.now)) }
{
    for lemma in lemmas {
        if !is_spelled_lemma(version, size, lemma) {
            return false;
        }
    }
    true
}

/// Whether the claim has a spelling.
#[tactic(auto, using(crate::proofs::Certificates::list_all_joined))]
pub(crate) fn is_spelled_claim(certificate: &Certificate) -> bool
    ensures { result ≡ list_all (is_spelled certificate.now.size)
        (lines_of (claim_of certificate.now)) }
{
    let rows = certificate.size.rows() as usize;
    is_spelled_number(rows)
        && are_spelled_lemmas(
            certificate.version,
            certificate.size,
            certificate.lemmas.as_slice(),
        )
        && is_spelled_node(certificate.size, &certificate.main)
}
