//! Why a proof or a claim is not made.

use std::alloc::{AllocError, AllocFailed};

/// Why there is nothing to give to the checker, although the steps did not run out.
#[derive(Clone, Copy, Debug, PartialEq, Eq)]
pub enum Refusal {
    /// Memory was refused.
    Memory,
    /// A limit of claims is passed.
    Limit,
    /// A turn or a number is not what it was before: two colourings share a key.
    Fault,
}

impl From<AllocError> for Refusal {
    fn from(_error: AllocError) -> Refusal {
        Refusal::Memory
    }
}

impl<T: Drop> From<AllocFailed<T>> for Refusal {
    fn from(_error: AllocFailed<T>) -> Refusal {
        Refusal::Memory
    }
}
