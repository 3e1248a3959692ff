// Observations added to a builder by a table of windows, which is built once from the tables of a rate
// and borrowed: what the four lanes get stands side by side, whichever of them is observed.
#![tactic(auto)]

mod adding;
mod table;

pub use adding::add_observations;
pub use table::{Windows, window_of};
