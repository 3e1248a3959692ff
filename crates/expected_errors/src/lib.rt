// The expected errors of a read: a table of error probabilities by quality, and sums over a column's
// qualities.
#![tactic(auto)]

mod sums;
mod table;

pub use sums::{error_sum, errors_with};
pub use table::{error_entry, error_table};
