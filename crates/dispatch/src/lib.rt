// Dispatching as plain data: jobs, the calls that a run takes and what it replies.
//
// What a run does with them is defined in specs/, over any supply and any order; the crates above prove their code
// against it.
#![tactic(auto)]

pub mod call;
pub mod job;
pub mod reply;

pub use call::Call;
pub use job::{Active, Job, RowState};
pub use reply::{Looked, Progress, Reply, Ticked};
