// Several string sets in turn by one caller: what a driver in C or Rust asks for, to see what a caller
// keeps from one set to the next.
#![tactic(auto)]

mod sets;

pub use sets::umi_sets;
