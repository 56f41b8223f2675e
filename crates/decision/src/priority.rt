// The test of fixed priority, where a row goes before all rows after it.
ghost use Rattle.fault.specs.Steps.{map_ok};
ghost use Rattle.table.specs.Tables.{rows_of};
ghost use Rattle.decision.specs.Decisions.{Prioritised};
ghost use Rattle.decision.specs.Responses.{responses_of};

use crate::count::Releases;
use crate::curves::{Promise, Work, Workload};
use crate::responses::Responses;
use crate::search::met;
use fault::{Fault, Rule};
use supply::Supply;
use table::Table;

// The response of each row, the least number of ticks, from one to its deadline, in which the supply promises its
// workload; refused with 41 at the first row that has none.
pub fn fixed_priority<S: Supply>(table: &Table, supply: &S) -> Result<Responses, Fault>
    ensures { Prioritised (rows_of table.now) (S.Supply.bound supply.now) (map_ok responses_of result) }
{
    let rows = table.rows();
    let mut responses = Responses::new();
    for (i, row) in rows.iter().enumerate() {
        let before = Work {
            rows: &rows[..i],
            counted: Releases,
        };
        let asked = Workload { row, before };
        let miss = Rule::RowInTime.broken_at(i as u32 + 1, row.deadline);
        let response = met(&asked, &Promise { supply }, 1, row.deadline).ok_or(miss)?;
        responses.push(response);
    }
    Ok(responses)
}
