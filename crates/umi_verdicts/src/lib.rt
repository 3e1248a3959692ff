// What is refused in a family: strings of one width that lie in a set.
#![tactic(auto)]

mod rows;
mod verdicts;

pub use verdicts::family_verdict;
