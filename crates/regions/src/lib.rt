//! Regions for a target: the order in which points come in, and what is supposed about the points outside, by placing stones there.
#![tactic(auto)]

mod chain;
mod distances;
mod named;
mod order;
mod place;
mod point_map;
mod position;
mod put_up;
mod sets;
mod supposed;
mod walls;
mod way_out;

pub use named::{named_point, named_set};
pub use order::Order;
pub use position::Position;
pub use supposed::{Supposed, suppose};
pub use walls::Walls;
pub use way_out::out_there;
