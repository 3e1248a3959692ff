// A call from the four lanes of a position, the last part of base_builder.rs: the shortcut that estimates
// the quality, and the long calculation, which works it out.
#![tactic(auto)]

mod call;
mod full;
mod margin;
mod multibase;
mod position;

pub use call::Call;
pub use margin::unanimous_margin;
pub use position::Position;
