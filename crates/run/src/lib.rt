// The run: a table's jobs dispatched tick by tick, over any supply and by any order.
//
// `run` is what a user holds: a supply, an order and a dispatcher. `dispatcher` holds the pending jobs, the clock and the
// counters; `serve` is what a tick does to the rows.
#![tactic(auto)]

mod counters;
mod dispatcher;
mod rows;
pub mod run;
mod serve;

pub use run::Run;
