//! Pictures of a record: what they show, and how they are written, as SVG and as lines for a terminal.
#![tactic(auto)]

mod ascii_picture;
mod drawing;
mod names;
mod said;
mod stars;
mod style;
mod svg_picture;
mod window;

pub use ascii_picture::ascii;
pub use drawing::{Drawing, Label, NoPicture, Shown, View, drawing_of};
pub use style::Scheme;
pub use svg_picture::{Look, svg};
