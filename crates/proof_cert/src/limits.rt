//! The limits of a claim.

/// The greatest number of lemmas of a claim.
pub const MAX_LEMMAS: usize = 65_535;

/// The greatest number of nodes of a claim.
pub const MAX_NODES: u32 = 10_000_000;

/// The greatest depth of a node; a body's first node has depth 1.
pub const MAX_DEPTH: u32 = 2_000;

/// The greatest number of listed colourings of a claim.
pub const MAX_LISTED: u32 = 1_000_000;
