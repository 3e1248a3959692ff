// base_builder.rs: the builder of one position and its calls. The tables of its rates are built once
// (crate rate_tables) and passed beside it.
#![tactic(auto)]

mod builder;
mod calls;

pub use builder::{ConsensusBaseBuilder, FULL_COUNT, entry, total};
