//! Short claims: found, judged, read and written. The program is a crate of its own, so its tests do not prove all this a second
//! time.
#![tactic(auto)]

mod death;
mod eyes;
mod first_turn;
mod judged;
mod notes;
mod program;
mod proof;
mod reading;
mod reading_record;
mod shown;
mod soundness;
mod standing;
mod walk;
mod whole;
mod words;

pub use program::run;
pub use proof::{Proved, prove};
pub use reading::{Reading, find_reading, reading_of};
