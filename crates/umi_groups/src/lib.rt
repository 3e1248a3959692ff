// The consensus of a group: strings at places of a set. A family, strings of one length, is called; of others
// the first string is the answer.
#![tactic(auto)]

mod group;
mod strings;

pub use group::{Group, consensus_group};
pub use strings::Strings;
