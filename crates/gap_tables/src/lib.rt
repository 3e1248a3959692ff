// The tables of a pre-UMI rate, from the first half of base_builder.rs: from which gap on a unanimous
// position has which quality.
#![tactic(auto)]

mod gaps;
mod thresholds;

pub use gaps::{
    UnanimousGapTables, build_unanimous_gap_tables, build_unanimous_gap_thresholds,
    consensus_error, unanimous_quality_from_gap,
};
