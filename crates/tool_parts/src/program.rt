//! What the `main` of a helper program does: it reads the words, makes the devices, and ends with an exit code.

ghost use Rattle.std.specs.Prelude.{◌≡◌, ◌⊎◌};
ghost use Rattle.run_parts.specs.Codes.{code_of};
ghost use Rattle.tool_parts.specs.Written.{IsWordless};
ghost use Rattle.run_parts.specs.declared.status.Status.{Status};

use crate::output::write_output;
use crate::words::NoRequest;
use crate::writing::write_text;
use counted_devices::Counting;
use run_parts::Status;
use std::alloc::{AllocError, AllocGlobal};
use std::env;
use std::io::{ErrorKind, Read, Write};
use std::rt::Env;

/// What is said if a word is not valid text, which no option can be.
const NO_TEXT: &str = "error: the words of the command line are no UTF-8 text\n";

/// Runs a program on its words, the first of which is its name, and returns the exit code. The devices are for input, output and
/// notes; one that was interrupted is asked again.
pub fn exit_code<E, R, W, N, F>(rt: &E, reader: R, writer: W, notes: N, run: F) -> u8
where
    E: Env + AllocGlobal,
    R: Read + Drop,
    W: Write + Drop,
    N: Write + Drop,
    F: FnOnce(&[String], &mut Counting<R>, &mut Counting<W>, &mut Counting<N>) -> Status,
    requires { F.IsAlwaysCallable run }
    ensures { (status : Status) × (result ≡ code_of status)
        × (((words : _) × (r : _) × (w : _) × (n : _) × (r2 : _) × (w2 : _) × (n2 : _)
        × F.post run words r w n status r2 w2 n2) ⊎ IsWordless status) }
{
    let mut reader = Counting::new(reader);
    let mut writer = Counting::new(writer);
    let mut notes = Counting::new(notes);
    let status = match words_of(rt) {
        Ok(words) => run(words.as_slice(), &mut reader, &mut writer, &mut notes),
        Err(none) => write_no_request(&mut writer, none),
    };
    status.code()
}

/// The words of the command line.
fn words_of<E: Env + AllocGlobal>(rt: &E) -> Result<Vec<String>, NoRequest> {
    let alloc = rt.alloc();
    match env::args(rt) {
        Ok(words) => Ok(words.collect::<Vec<String>>(alloc)?),
        Err(error) if error.kind() == ErrorKind::OutOfMemory => Err(NoRequest::Memory),
        Err(_) => Err(NoRequest::Words(format!(in alloc; "{NO_TEXT}")?)),
    }
}

/// Writes why the words ask for nothing.
fn write_no_request<W: Write>(writer: &mut W, none: NoRequest) -> Status
    ensures { IsWordless result }
{
    match none {
        NoRequest::Words(text) => write_text(writer, text.as_bytes(), Status::BadWords),
        NoRequest::Memory => write_output(writer, Err(AllocError)),
    }
}
