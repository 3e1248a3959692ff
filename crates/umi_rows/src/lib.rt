// Strings of one width that lie in a set. Each place is that of a string's length byte.
#![tactic(auto)]

mod family;
mod rows;

pub use family::{Family, gather};
pub use rows::Rows;
