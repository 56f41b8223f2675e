// What support does with a branch's recording: the day is run again over the branch's reservation.
#![tactic(auto)]

pub mod failure;
pub mod recording;

pub use failure::Failure;
pub use recording::replay_by_deadline;
