//! Pages of answers: a reader's copy of a solution record, and the data of an interactive page.
#![tactic(auto)]

mod bare;
mod json;
mod json_notes;
mod json_text;
mod lines;
mod page;
mod puzzle;
mod returning;
mod same;
mod titles;
mod variations;

pub use bare::without_past;
pub use json::page_json;
pub use lines::{Cut, descending};
pub use page::{NoPage, Page, page_of};
pub use returning::may_return;
pub use same::are_same;
pub use titles::push_titles;
