// The same run many times, for timing: a list of a builder's calls in bytes, or the columns of a file.
#![tactic(auto)]

mod amounts;
mod columns;
mod scripts;

pub use columns::calls;
pub use scripts::times;
