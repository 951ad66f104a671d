//! The replies of the program: what a command answers for its input, and the texts.
#![tactic(auto)]

mod claim;
mod input;
mod record;
mod reply;
mod texts;

pub use claim::MAX_WHITE;
pub use input::{White, read_past_white};
pub use reply::{Failure, Reply, Response, reply_to};
pub use texts::{NO_MEMORY, NO_READ, TOO_LARGE, reject_text, unknown_text, wins_text};
