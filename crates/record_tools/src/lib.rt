//! What `problem_tools` does: takes the games of a file apart, marks the problem of a record, draws it, and makes a page of its
//! answer. The program is a crate of its own, so its tests do not prove all this a second time.
#![tactic(auto)]

mod bare;
mod commands;
mod games;
mod parts;
mod program;
mod refusals;
mod split;
mod told;
mod words;

pub use program::run;
pub use words::{PageForm, Request, Zone, read_request};
