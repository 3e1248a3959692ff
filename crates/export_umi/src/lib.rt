// The functions on UMI strings by number, each with one number as its reply: what a driver in C or Rust
// asks for.
#![tactic(auto)]

mod asked;
mod codes;
mod sent;

pub use asked::{Asked, Question, ask};
pub use codes::{Given, umi};
pub use sent::umi_caller;
