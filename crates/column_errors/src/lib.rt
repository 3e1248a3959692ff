// The error sums of a column file, printed into a buffer: a line for each column.
#![tactic(auto)]

mod stream;
mod sums;

pub use stream::{TEXT_ROOM, print_stream};
pub use sums::print;
