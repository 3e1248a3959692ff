// A column file written by parts: the settings with the announced number of columns, one column after
// another, the string set, and a finish.
#![tactic(auto)]

mod stages;
mod writer;

pub use stages::{PartKind, Stage};
pub use writer::Writer;
