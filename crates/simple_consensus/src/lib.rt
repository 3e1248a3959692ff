// The caller of simple_umi.rs that refuses strings of unequal lengths. A set is borrowed in its file form,
// and the answer goes into a borrowed buffer.
#![tactic(auto)]

mod caller;
mod group;

pub use caller::{Consensus, SimpleConsensusCaller, consensus_umis};
pub use group::{GroupConsensus, group_consensus};
