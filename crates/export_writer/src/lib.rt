// A writer as one number, for C and Rust, which hold it and hand it back: the steps of writing by that
// number, each with one number as its reply.
#![tactic(auto)]

mod numbers;
mod steps;

pub use numbers::number_of;
pub use steps::{finish, new_writer, write, written};
