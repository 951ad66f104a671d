//! The words of `group_status`: what its command line asks for, the rule by which findings give the words that are said of a group,
//! and why nothing is asked. None of it needs a search.
#![tactic(auto)]

mod refusals;
mod rule;
mod side;
mod words;

pub use refusals::{before_passes, no_marks, no_stone, no_tree, node_asked};
pub use rule::{Fate, Judgement, judged_by, together};
pub use side::{Finding, Side, Word, is_won_by};
pub use words::{Form, Length, Request, read_request};
