//! Kinds of claims.

/// Where the leaves of a claim may be.
#[derive(Clone, Copy, Debug, PartialEq, Eq)]
pub(crate) enum Kind {
    /// States that are won.
    Ordinary,
    /// These, and states whose targets live by their shape.
    Short,
}
