// The columns of a file as records of 28 bytes: numbers for programs, where a listing is text for people.
#![tactic(auto)]

mod columns;

pub use columns::records;
