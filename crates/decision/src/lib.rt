// The decisions: whether a supply suffices for a table, over any supply.
//
// `window`, `priority` and `deadline` are the three decisions, and `determined` says that each has one answer only.
// Behind them stand what rows ask and what a supply promises as curves, by what is counted of a row, and one search
// over curves.
#![tactic(auto)]

mod count;
mod curves;
pub mod deadline;
pub mod determined;
pub mod priority;
pub mod responses;
mod search;
pub mod window;

pub use deadline::earliest_deadline;
pub use priority::fixed_priority;
pub use responses::Responses;
pub use window::busy_window;
