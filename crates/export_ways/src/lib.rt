// The ways in which a script's calls can be run. They give the same, and are here to be compared: where
// they copy tables at each call, they do so because the functions that they run take them by value.
#![tactic(auto)]

mod items;
mod ways;

pub use items::{pass, step};
pub use ways::{ByValue, LentBuilder, LentTables, Way};
