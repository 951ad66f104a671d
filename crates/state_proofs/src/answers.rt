//! Which answer is wanted.

/// The steps that are added to those of a smaller answer, and the most that it may have in all.
const MORE_STEPS: u64 = 20_000;

const MAX_STEPS: u64 = 200_000;

/// Which answer is wanted.
#[derive(Clone, Copy, Debug, PartialEq, Eq)]
pub enum Answers {
    /// The first answer that is found.
    First,
    /// A small answer, for which some more steps are made.
    Small,
    /// The first answer for a short claim: a state where the defender lives by the shape of his stones is a leaf.
    Short,
}

/// The most steps that are made for a smaller answer if the first one took `first` steps: twice as many and some more.
pub fn steps_for_smaller(first: u64) -> u64 {
    first
        .saturating_mul(2)
        .saturating_add(MORE_STEPS)
        .min(MAX_STEPS)
}
