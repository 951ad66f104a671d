//! The bytes of a reply, and the texts of some.

ghost use Rattle.std.specs.Prelude.{◌≡◌, ◌*◌, IfOk, length};
ghost use Rattle.gtp_core.specs.Words.{success, failure, reply_bytes};
ghost use Rattle.gtp_core.specs.Commands.{refusal_text};
ghost use Rattle.gtp_core.specs.Serving.{fed_rows, within_text};

use crate::refusal::Refusal;
use go_points::Colour;
use std::alloc::{AllocError, Global};
use target_game::Within;

/// The bytes of a reply with this mark.
fn reply(alloc: Global, mark: u8, id: &[u8], text: &[u8]) -> Result<Vec<u8>, AllocError>
    ensures { IfOk result (λ bytes. bytes.items ≡ reply_bytes mark id.now text.now) }
{
    let mut bytes = Vec::new(alloc);
    bytes.push(mark)?;
    bytes.extend_from_slice(id)?;
    if !text.is_empty() {
        bytes.push(b' ')?;
        bytes.extend_from_slice(text)?;
    }
    bytes.extend_from_slice(b"\n\n")?;
    Ok(bytes)
}

/// The reply to a command that succeeded.
pub(crate) fn success(alloc: Global, id: &[u8], text: &[u8]) -> Result<Vec<u8>, AllocError>
    ensures { IfOk result (λ bytes. bytes.items ≡ success id.now text.now) }
{
    reply(alloc, b'=', id, text)
}

/// The reply to a command that is refused.
pub(crate) fn failure(alloc: Global, id: &[u8], why: Refusal) -> Result<Vec<u8>, AllocError>
    ensures { IfOk result (λ bytes. bytes.items ≡ failure id.now (refusal_text why)) }
{
    reply(alloc, b'?', id, why.text())
}

/// So many rows of so many bytes each, each after a line feed.
pub(crate) fn fed_rows(alloc: Global, rows: usize, cells: &[u8]) -> Result<Vec<u8>, AllocError>
    requires { length cells.now ≡ rows * rows }
    ensures { IfOk result (λ text. text.items ≡ fed_rows rows rows cells.now) }
{
    let mut text = Vec::new(alloc);
    for row in 0..rows {
        text.push(b'\n')?;
        text.extend_from_slice(&cells[row * rows..row * rows + rows])?;
    }
    Ok(text)
}

/// What is told of a decision.
pub(crate) fn within_text(decision: Within) -> &'static [u8]
    ensures { result.now ≡ within_text decision }
{
    match decision {
        Within::Wins(Colour::Black) => b"wins Black",
        Within::Wins(Colour::White) => b"wins White",
        Within::Neither => b"neither",
        Within::Limit => b"limit",
    }
}
