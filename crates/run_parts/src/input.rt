//! Reading the input, up to a limit.

ghost use Rattle.std.specs.Prelude.{◌≡◌, ◌≤◌, ◌+◌, ◌++◌, ℕ, List, length, OnOk, IfOk};
ghost use Rattle.std.specs.Io.KnownBytes.{Consumes, IsAtEnd};

use std::alloc::AllocError;
use std::io::Read;

/// How many bytes a reader is asked for at once.
const BLOCK: usize = 65_536;

/// How reading ended.
#[derive(Clone, Copy, Debug, PartialEq, Eq)]
pub enum InputEnd {
    /// The input has ended.
    Whole,
    /// There are as many bytes as are wanted.
    Full,
    /// A read failed.
    Failed,
}

/// Appends what the reader has, in blocks, until it has ended, a read fails, or there are `limit` bytes. No byte after those is asked for.
pub fn read_to_limit<R: Read>(
    reader: &mut R,
    into: &mut Vec<u8>,
    limit: usize,
) -> Result<InputEnd, AllocError>
    requires { length into.old.items ≤ limit }
    ensures bytes { OnOk result ((bytes : List ℕ) × (into.new.items ≡ into.old.items ++ bytes)
        × Consumes (R.remaining reader.old) (R.remaining reader.new) bytes) }
    ensures asked { (bytes : List ℕ)
        × Consumes (R.remaining reader.old) (R.remaining reader.new) bytes
        × (length into.old.items + length bytes ≤ limit) }
    ensures end { IfOk result (λ r. r ≡ InputEnd.Whole → IsAtEnd (R.remaining reader.new)) }
    ensures full { IfOk result (λ r. r ≡ InputEnd.Full → length into.new.items ≡ limit) }
{
    let mut block = [0u8; BLOCK];
    while into.len() < limit {
        let room = (limit - into.len()).min(BLOCK);
        match reader.read(&mut block[..room]) {
            Ok(0) => return Ok(InputEnd::Whole),
            Ok(count) => into.extend_from_slice(&block[..count])?,
            Err(_) => return Ok(InputEnd::Failed),
        }
    }
    Ok(InputEnd::Full)
}
