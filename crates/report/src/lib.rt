// From a table text's bytes to a report's bytes.
//
// The way through: `task` reads the text into a policy, a server and a table; `verdict` decides; `answer` says the
// verdict, or the fault of whatever refused, in lines, and `report` writes them. `export` is the same call as C has it, and
// `determined` says that each text has one report only.
#![tactic(auto)]

pub mod answer;
pub mod determined;
pub mod export;
pub mod task;
pub mod verdict;

pub use answer::report;
pub use export::timerdaisy_report;
pub use task::{Task, read_task};
pub use text::Policy;
pub use verdict::Verdict;
