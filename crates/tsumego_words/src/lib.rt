//! The words of the program `tsumego`: the command that they give, by `clap`.
#![tactic(auto)]

mod command_line;

pub use command_line::{Command, NoCommand, read_command};
