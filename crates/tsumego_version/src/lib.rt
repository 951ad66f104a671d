//! The version of the programs, in one place.
#![tactic(auto)]

/// What `--version` prints after a program's name.
pub const VERSION: &str = "1.1.0";
