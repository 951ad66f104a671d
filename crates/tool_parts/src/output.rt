//! What a run writes.

ghost use Rattle.std.specs.Prelude.{◌≡◌, ◌≢◌, codes, IfOk, IsTrue, Ok, is_err};
ghost use Rattle.std.specs.Io.KnownBytes.{Appends};
ghost use Rattle.tool_parts.specs.Written.{bytes_of, end_of};
ghost use Rattle.tool_parts.specs.declared.output.Output.TheVariants.{Text};
ghost use Rattle.run_parts.specs.declared.status.Status.TheVariants.{BadWords, Failed};
ghost use Rattle.tool_parts.specs.declared.words.NoRequest.TheVariants.{Words};

use crate::words::NoRequest;
use crate::writing::{write_record, write_text};
use run_parts::Status;
use sgf_text::Tree;
use std::alloc::{AllocError, Global};
use std::io::Write;

/// What a run writes: a record and a line feed, or a text with the status that belongs to it.
#[derive(Drop)]
pub enum Output {
    Record(Tree),
    Text(String, Status),
}

/// Writes the output. If memory was refused, a text of its own says so. Returns how the run ends.
pub fn write_output<W: Write>(writer: &mut W, output: Result<Output, AllocError>) -> Status
    ensures written { IfOk output (λ o. result ≢ Failed
        → Appends (W.contents writer.old) (W.contents writer.new) (bytes_of o)) }
    ensures status { IfOk output (λ o. result ≢ Failed → result ≡ end_of o) }
    ensures memory { IsTrue (is_err output) → result ≡ Failed }
{
    match output {
        Ok(Output::Record(tree)) => write_record(writer, &tree),
        Ok(Output::Text(text, status)) => write_text(writer, text.as_bytes(), status),
        Err(_) => write_text(writer, b"failed: memory\n", Status::Failed),
    }
}

/// What is written if the words ask for nothing.
pub fn without_request(none: NoRequest) -> Result<Output, AllocError>
    ensures text { (text : _) → none ≡ Words text → result ≡ Ok (Text text BadWords) }
    ensures status { IfOk result (λ o. end_of o ≡ BadWords) }
{
    match none {
        NoRequest::Words(text) => Ok(Output::Text(text, Status::BadWords)),
        NoRequest::Memory => Err(AllocError),
    }
}

/// What is written if the input was not read to its end.
pub fn without_input(alloc: Global) -> Result<Output, AllocError>
    ensures text { IfOk result (λ o. bytes_of o ≡ codes "failed: read\n") }
    ensures status { IfOk result (λ o. end_of o ≡ Failed) }
{
    Ok(Output::Text(format!(in alloc; "failed: read\n")?, Status::Failed))
}
