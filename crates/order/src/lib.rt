// Orders: which of two pending jobs goes first, and by which test an order accepts a table.
//
// `interface` is all that the crates above know of an order: its keys, its test and their laws. `priority` and
// `deadline` are the two orders.
#![tactic(auto)]

pub mod deadline;
pub mod interface;
pub mod priority;

pub use deadline::EarliestDeadline;
pub use interface::Order;
pub use priority::FixedPriority;
