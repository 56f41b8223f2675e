// Earliest deadline: the job that is due first goes first, and where two are due together, that of the lower row.
ghost use Rattle.std.specs.Prelude.{◌-◌};
ghost use Rattle.table.specs.Sums.{row_at};
ghost use Rattle.decision.specs.Decisions.{Scheduled};
ghost use Rattle.order.specs.Orders.{due_sooner};
ghost use Rattle.std.proofs.Common.{rules};

use crate::interface::Order;
use decision::earliest_deadline;
use dispatch::Job;
use fault::Fault;
use supply::Supply;
use table::Table;

#[derive(Clone, Copy)]
pub struct EarliestDeadline {}

impl Order for EarliestDeadline {
    // Deadline and row.
    type Key = (u32, u32);

    // The busy window.
    type Accepted = u32;

    ghost keyed = { λ _ job. (job.deadline, job.row) };

    ghost before = { due_sooner };

    ghost tested = { λ _ rs B r. Scheduled rs B r };

    // a row's relative deadline
    ghost limit = { λ _ rs window row. (row_at rs (row - 1)).deadline };

    ghost one_first = { Prim.search rules };

    ghost transitive = { Prim.search rules };

    fn key(&self, job: Job) -> (u32, u32) {
        (job.deadline, job.row)
    }

    fn goes_first(&self, a: (u32, u32), b: (u32, u32)) -> bool {
        a < b
    }

    fn test<S: Supply>(&self, table: &Table, supply: &S) -> Result<u32, Fault> {
        earliest_deadline(table, supply)
    }

    fn accepted_table_misses_no_job<S: Supply>(&self, supply: &S) {}
}
