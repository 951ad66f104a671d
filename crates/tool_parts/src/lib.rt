//! What the helper programs share: copies of trees, and how a run reads its input, writes, and ends.
#![tactic(auto)]

mod colours;
mod copies;
mod input;
mod output;
mod program;
mod refusals;
mod texts;
mod words;
mod writing;

pub use colours::{colour_letter, colour_name, winner_said};
pub use copies::{
    copy_bytes, copy_node, copy_properties, copy_property, copy_tree, push_nodes, push_trees,
    single,
};
pub use input::read_whole;
pub use output::{Output, without_input, without_request, write_output};
pub use program::exit_code;
pub use refusals::{refused, refused_problem, refused_tree};
pub use texts::text_of;
pub use words::{NoRequest, no_request};
pub use writing::{write_record, write_text};
