// A column file: settings, columns and a string set, each after its count. Reading one, and its parts
// alone.
#![tactic(auto)]

mod columns;
mod file;
mod settings;

pub use columns::{ColumnPlace, Columns, column_at, read_column};
pub use file::{Places, read};
pub use settings::{Settings, read_settings};
