// The listing of a column file: a line for each column, and one for its strings.
#![tactic(auto)]

mod listing;

pub use listing::{list, print};
