// The reports that a list of a builder's calls in bytes asks for: what a driver in C or Rust hands over
// and gets back.
#![tactic(auto)]

mod report;
mod runs;
mod state;

pub use report::{builder_bytes, put_counts, put_patterns};
pub use runs::{history, history_by};
pub use state::{builder_of, from_state};
