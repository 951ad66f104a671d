//! What a run writes, and how it ends.

ghost use Rattle.std.specs.Prelude.{◌≡◌, ◌≢◌, ◌⊎◌, ◌++◌, ◌∷◌, []};
ghost use Rattle.std.specs.Io.KnownBytes.{Appends};
ghost use Rattle.sgf_text.specs.Text.{tree_text};
ghost use Rattle.run_parts.specs.declared.status.Status.TheVariants.{Answered, Failed};

use run_parts::Status;
use sgf_text::{Tree, write_bytes, write_tree};
use std::io::Write;

/// Writes the whole text and returns this status, or `Failed` if a write fails.
pub fn write_text<W: Write>(writer: &mut W, text: &[u8], status: Status) -> Status
    ensures written { result ≢ Failed
        → Appends (W.contents writer.old) (W.contents writer.new) text.now }
    ensures status { (result ≡ status) ⊎ (result ≡ Failed) }
{
    match write_bytes(text, writer) {
        Ok(()) => status,
        Err(_) => Status::Failed,
    }
}

/// Writes the record and a line feed. Returns `Failed` if a write fails.
pub fn write_record<W: Write>(writer: &mut W, tree: &Tree) -> Status
    ensures written { result ≢ Failed
        → Appends (W.contents writer.old) (W.contents writer.new) (tree_text tree.now ++ 10 ∷ []) }
    ensures status { (result ≡ Answered) ⊎ (result ≡ Failed) }
{
    match write_tree(tree, writer) {
        Ok(()) => write_text(writer, b"\n", Status::Answered),
        Err(_) => Status::Failed,
    }
}
