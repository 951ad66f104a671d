//! Why a run ended before its input did.

use thiserror::Error;

/// Why a run ended before its input did, and without `quit`.
#[derive(Clone, Copy, Debug, PartialEq, Eq, Error)]
pub enum GtpEnd {
    /// A read failed, or the input is longer than `MAX_INPUT`.
    #[error("read")]
    Read = 1,
    /// A write failed, or took nothing.
    #[error("write")]
    Write = 2,
    /// Memory ran out for a session.
    #[error("memory")]
    Memory = 3,
}
