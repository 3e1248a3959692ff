// A list of a builder's calls in bytes: its items, and what a builder has been through.
#![tactic(auto)]

mod item;
mod progress;
mod script;

pub use item::Item;
pub use progress::Progress;
pub use script::{Items, is_script, questions_in};
