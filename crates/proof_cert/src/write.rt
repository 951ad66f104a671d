//! Why a claim was not written.

use thiserror::Error;

/// Why a claim was not written.
#[derive(Clone, Copy, Debug, PartialEq, Eq, Error)]
pub enum CertWrite {
    /// The writer failed, or took nothing.
    #[error("write")]
    Write = 1,

    /// The claim has no spelling.
    #[error("no spelling")]
    NoSpelling = 2,
}
