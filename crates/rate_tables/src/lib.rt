// The tables of a post-UMI rate, from the first half of base_builder.rs: what an observation adds to a
// lane.
#![tactic(auto)]

mod adjusted;

pub use adjusted::{AdjustedEntry, AdjustedProbabilityTables, adjusted_entry};
