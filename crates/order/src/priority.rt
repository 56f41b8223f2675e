// Fixed priority: the job of the lower row goes first.
ghost use Rattle.std.specs.Prelude.{◌-◌, nat_lt, slice_index};
ghost use Rattle.fault.specs.Steps.{map_ok};
ghost use Rattle.decision.specs.Decisions.{Prioritised};
ghost use Rattle.decision.specs.Responses.{responses_of};
ghost use Rattle.std.proofs.Common.{rules};

use crate::interface::Order;
use decision::{Responses, fixed_priority};
use dispatch::Job;
use fault::Fault;
use supply::Supply;
use table::Table;

#[derive(Clone, Copy)]
pub struct FixedPriority {}

impl Order for FixedPriority {
    type Key = u32;

    type Accepted = Responses;

    ghost keyed = { λ _ job. job.row };

    ghost before = { nat_lt };

    ghost tested = { λ _ rs B r. Prioritised rs B (map_ok responses_of r) };

    // a row's response
    ghost limit = { λ _ rs responses row. slice_index (responses_of responses) (row - 1) };

    ghost one_first = { Prim.search rules };

    ghost transitive = { Prim.search rules };

    fn key(&self, job: Job) -> u32 {
        job.row
    }

    fn goes_first(&self, a: u32, b: u32) -> bool {
        a < b
    }

    fn test<S: Supply>(&self, table: &Table, supply: &S) -> Result<Responses, Fault> {
        fixed_priority(table, supply)
    }

    fn accepted_table_misses_no_job<S: Supply>(&self, supply: &S) {}
}
