// The test of earliest deadline.
ghost use Rattle.std.specs.Prelude.{◌<◌, ◌≤◌};
ghost use Rattle.table.specs.Tables.{rows_of};
ghost use Rattle.table.specs.Sums.{demand};
ghost use Rattle.decision.specs.Decisions.{Scheduled};
ghost use Rattle.decision.specs.Least.{Found};

use crate::count::Deadlines;
use crate::curves::{Beyond, Work};
use crate::search::met;
use crate::window::busy_window;
use fault::{Fault, Rule};
use supply::Supply;
use table::Table;

// The least number of ticks, up to `last`, in which more can be due than the supply promises.
fn first_overload<S: Supply>(table: &Table, supply: &S, last: u32) -> Option<u32>
    requires { last ≤ 1000000 }
    ensures { Found (λ t. S.Supply.bound supply.now t < demand (rows_of table.now) t) 0 last result }
{
    let due = Work {
        rows: table.rows(),
        counted: Deadlines,
    };
    met(&Beyond { supply }, &due, 0, last)
}

// The busy window, where in every number of ticks, without upper limit, the supply promises all that can be due in
// them. Refused with 43 where no window closes, and else with 42 at the least number of ticks for which it does not.
pub fn earliest_deadline<S: Supply>(table: &Table, supply: &S) -> Result<u32, Fault>
    ensures { Scheduled (rows_of table.now) (S.Supply.bound supply.now) result }
{
    let window = busy_window(table, supply)?;
    match first_overload(table, supply, window - 1) {
        Some(t) => Err(Rule::NoOverload.broken_at(0, t)),
        None => Ok(window),
    }
}
