// The lanes of a position and the rules that name one of them, a part of base_builder.rs.
#![tactic(auto)]

mod lane;
mod lead;
mod tie_rule;
mod unique_max;

pub use lane::{base_of, is_base, lane_of, lanes_after};
pub use tie_rule::{TieRule, fgbio_tie, ties_with, ulp_tie, untied};
pub use unique_max::{fgbio_unique_max_index, unique_max_index, unique_max_index_with};
