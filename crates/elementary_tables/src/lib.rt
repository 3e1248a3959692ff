// The tables of the elementary functions. A crate of its own, since 128 rows are slow to check and
// never change.
#![tactic(auto)]

mod exp_table;
mod ln_table;

pub use exp_table::{ExpRow, exp_row};
pub use ln_table::{LnRow, ln_row};
