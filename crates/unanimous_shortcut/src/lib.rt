// The shortcut of base_builder.rs where one base alone was observed: its quality is looked up in the
// tables of the pre-UMI rate.
#![tactic(auto)]

mod search;
mod unanimous;

pub use search::partition_point;
pub use unanimous::{reply_for_lane, sole_lane, try_unanimous_fast_path};
