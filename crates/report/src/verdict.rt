// The decision on a task, by its own policy.
ghost use Rattle.table.specs.Tables.{rows_of};
ghost use Rattle.supply.specs.Server.{server_bound};
ghost use Rattle.report.specs.Verdicts.{Decided};

use crate::task::Task;
use decision::{Responses, earliest_deadline, fixed_priority};
use fault::Fault;
use text::Policy;

// What an accepted task is told: the response of each row, or the busy window.
#[derive(Clone, Copy)]
pub enum Verdict {
    Responses(Responses),
    Window(u32),
}

impl Task {
    pub fn decide(&self) -> Result<Verdict, Fault>
        ensures { Decided self.now.policy (rows_of self.now.table) (server_bound self.now.server) result }
    {
        match self.policy {
            Policy::FixedPriority => {
                let responses = fixed_priority(&self.table, &self.server)?;
                Ok(Verdict::Responses(responses))
            }
            Policy::EarliestDeadline => {
                let window = earliest_deadline(&self.table, &self.server)?;
                Ok(Verdict::Window(window))
            }
        }
    }
}
