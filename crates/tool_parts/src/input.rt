//! The input of a run.

ghost use Rattle.std.specs.Prelude.{◌≡◌, ◌++◌, ℕ, List, IsTrue, OnOk, IfOk};
ghost use Rattle.std.specs.Io.KnownBytes.{Consumes, IsAtEnd};
ghost use Rattle.tool_parts.specs.Input.{Tells};

use run_parts::{InputEnd, read_to_limit};
use std::alloc::AllocError;
use std::io::Read;

/// The greatest length of an input, in bytes: 64 MiB.
const MAX_INPUT: usize = 67_108_864;

/// Appends what the reader has, in blocks. Returns `true` if the reader has ended, and `false` if a read fails or the input has 64
/// MiB or more.
pub fn read_whole<R: Read>(reader: &mut R, into: &mut Vec<u8>) -> Result<bool, AllocError>
    ensures bytes { OnOk result ((bytes : List ℕ) × (into.new.items ≡ into.old.items ++ bytes)
        × Consumes (R.remaining reader.old) (R.remaining reader.new) bytes) }
    ensures end { IfOk result (λ whole. IsTrue whole → IsAtEnd (R.remaining reader.new)) }
    ensures whole { IfOk result (λ whole. IsTrue whole → (bytes : List ℕ)
        × (into.new.items ≡ into.old.items ++ bytes) × Tells (R.remaining reader.old) bytes) }
{
    let limit = MAX_INPUT.max(into.len());
    Ok(read_to_limit(reader, into, limit)? == InputEnd::Whole)
}
