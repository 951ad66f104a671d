//! Why the words of a command line ask for nothing.

use clap::Error;
use clap::error::ErrorKind;
use std::alloc::{AllocError, Global};

/// Why nothing is asked for.
#[derive(Debug, Drop)]
pub enum NoRequest {
    /// The words have a fault, or ask for help or the version. This is the text.
    Words(String),
    Memory,
}

impl From<AllocError> for NoRequest {
    fn from(_: AllocError) -> NoRequest {
        NoRequest::Memory
    }
}

/// What a failed parse says: `clap`'s text, about which no clause says anything.
pub fn no_request(alloc: Global, error: &Error) -> NoRequest {
    if let ErrorKind::OutOfMemory = error.kind() {
        return NoRequest::Memory;
    }
    match format!(in alloc; "{error}") {
        Ok(text) => NoRequest::Words(text),
        Err(_) => NoRequest::Memory,
    }
}
