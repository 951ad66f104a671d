//! The text of a short claim. Nothing is promised of its bytes: whoever writes one has it judged as it stands.

use crate::certificate::{Certificate, Lemma};
use crate::claim_text::{put_all_had, put_listed, put_node};
use crate::line_text::{put_lemma_line, put_short_header, put_word};
use crate::spelling::Spelling;
use crate::version::Version;
use byte_writer::{PendingBytes, WriteFault};
use go_points::Size;
use std::io::Write;

/// Writes the text of a short claim, in which the use of lemma 0 is the line `alive`. It allocates no memory. After a failed write
/// the writer has taken a front of the text.
pub fn write_short<W: Write>(certificate: &Certificate, writer: &mut W) -> Result<(), WriteFault> {
    let size = certificate.size;
    let mut pending = PendingBytes::new();
    put_short_header(size, certificate.winner, &mut pending, writer);
    for lemma in certificate.lemmas.as_slice() {
        put_short_lemma(size, lemma, &mut pending, writer);
    }
    put_word(b"main", &mut pending, writer);
    put_node(
        Spelling::Short,
        size,
        &certificate.main,
        &mut pending,
        writer,
    );
    put_word(b"end", &mut pending, writer);
    pending.finish(writer)
}

fn put_short_lemma<W: Write>(
    size: Size,
    lemma: &Lemma,
    pending: &mut PendingBytes,
    writer: &mut W,
) {
    put_lemma_line(size, lemma, pending, writer);
    put_all_had(Version::Two, size, lemma.had.as_slice(), pending, writer);
    put_listed(size, lemma.absent.as_slice(), pending, writer);
    put_node(Spelling::Short, size, &lemma.body, pending, writer);
    put_word(b"end", pending, writer);
}
