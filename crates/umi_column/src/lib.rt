// One column of a family of UMI strings: the bytes that they have at one place.
#![tactic(auto)]

mod calls;
mod dna;
mod sums;
mod verdicts;

pub use calls::{add_column, consensus_byte, sums_byte};
pub use dna::is_dna_base;
pub use sums::{add_base, no_sums};
pub use verdicts::column_verdict;
