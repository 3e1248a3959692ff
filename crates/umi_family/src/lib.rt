// What a family, strings of one width that lie in a set, gives: each column's byte, and the builder after
// the last.
#![tactic(auto)]

mod by_sums;
mod calls;
mod columns;
mod counts;
mod leads;

pub use calls::{Called, call_family};
