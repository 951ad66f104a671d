//! Bytes written a piece at a time, and what a failed write leaves.
#![tactic(auto)]

mod pending;
mod write;

pub use pending::PendingBytes;
pub use write::{WriteFault, write_bytes};
