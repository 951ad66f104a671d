//! Half of a position's key, by which proofs are found, and by which they hold the results that must not have occurred.
//!
//! There are up to millions of these results, and none of them is looked at in the claim. Two positions that share a fingerprint
//! can at worst keep a proof from being used where it holds, and then the search goes on as if there were none. A proof that is
//! found by a fingerprint is compared by its whole key.

/// Half of the key of a position. The two halves are mixed equally well.
pub(crate) fn fingerprint_of(position: u64) -> u32 {
    (position >> 32) as u32
}
