// From a column's bytes to its call and counts.
#![tactic(auto)]

mod columns;

pub use columns::{ColumnCall, ColumnCaller, call_column, start};
