// What one observation does to the four lanes of a position: Kahan's step for each, and the count of the
// lane that was observed.
#![tactic(auto)]

mod observation;

pub use observation::{LaneSums, Sum, count, moved_lanes, values};
