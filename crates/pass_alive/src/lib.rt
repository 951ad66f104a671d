//! Groups that live by their shape, whatever the attacker plays and even if their owner passes for ever.
#![tactic(auto)]

mod areas;
mod around;
mod chains;
mod eyes;
mod lasting;
pub mod laws;
mod living;
mod problems;
mod sets;
mod sides;
mod spread;

pub use areas::areas_of;
pub use living::{is_pass_alive, living_stones};
pub use problems::{lives_at, lives_on};
pub use sets::{are_members, is_near, put_in};
