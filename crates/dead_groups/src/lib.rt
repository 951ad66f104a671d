//! Groups that are dead by answers: one side plays within a region, and takes them, whatever the other side plays anywhere.
#![tactic(auto)]

mod body;
mod claim;
mod entries;
mod entry_list;
mod kill;
pub mod laws;
mod states;

pub use claim::{Verdict, judge};
pub use entries::{Outcome, attack, is_met, is_taken};
pub use states::{attacked, freed, is_sure, misfits, without_loose, without_unsafe};
