//! Proof and disproof numbers.

/// The number of something that can never be proved.
pub const INFINITY: u32 = 4_294_967_295;

/// The least number of leaves that have to be proved, and the least number that have to be disproved.
#[derive(Clone, Copy, Debug, PartialEq, Eq)]
pub struct Numbers {
    pub proof: u32,
    pub disproof: u32,
}
