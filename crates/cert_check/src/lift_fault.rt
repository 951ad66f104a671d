//! Why a claim is not lifted.

use thiserror::Error;

/// Why a claim is not lifted.
#[derive(Clone, Copy, Debug, PartialEq, Eq, Error)]
pub enum Lift {
    /// The claim has lemmas.
    #[error("has lemmas")]
    HasLemmas = 1,

    /// The lifted claim would pass a limit.
    #[error("limit")]
    Limit = 2,

    #[error("out of memory")]
    Memory = 3,
}
