// simple_umi.rs: the consensus of a set of UMI strings, column by column, by the caller that refuses less,
// and by strands. A set is borrowed in its file form, and the answer goes into a borrowed buffer.
#![tactic(auto)]

mod duplex;
mod umi_caller;

pub use simple_consensus::{Consensus, SimpleConsensusCaller, consensus_umis};
pub use umi_caller::{DuplexConsensus, FlaggedConsensus, SimpleUmiConsensusCaller};
