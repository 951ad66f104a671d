//! Limits that several programs have.

/// The greatest number of turns of an answer tree that is written.
pub const MAX_TURNS: usize = 90_000;

/// The most bytes of the input that are read before a record is looked for in them: as many as a record may have, and one.
pub const MAX_FRONT: usize = 1_048_577;

/// The greatest number of steps that may be asked for.
pub const MAX_STEPS: u64 = 10_000_000;

/// How many states a search keeps the numbers of, by default.
pub const TABLE: usize = 65_536;
