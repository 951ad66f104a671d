//! The GTP session: what a line asks for and what it gets, and a run over a reader and a writer.
#![tactic(auto)]

mod channel;
mod command;
mod end;
mod fed;
mod input;
mod line;
mod name;
mod order;
mod refusal;
mod reply;
mod run;
mod search;
mod session;
mod words;

pub use channel::{Plain, ReadFrom, WriteTo};
pub use command::{Command, Saying};
pub use end::GtpEnd;
pub use fed::Fed;
pub use name::CommandName;
pub use refusal::Refusal;
pub use run::{MAX_INPUT, run_gtp, run_over};
pub use session::{MAX_LINE, Session};
