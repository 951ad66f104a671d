//! The claims of shared proofs, and the shared proofs of a given tree.
//!
//! Nothing is promised about a claim: each is to be given to the checker.
#![tactic(auto)]

mod claim;
mod full_tree;
mod lemma_choice;
mod list_length;
mod tree;

pub use claim::{Choice, Pasts, Saving, claim_with_lemmas, claim_without_lemmas};
pub use full_tree::share_tree;
pub use lemma_choice::MAX_TRIED;
