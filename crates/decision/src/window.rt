// The busy window: how long a table can keep a supply busy.
ghost use Rattle.table.specs.Tables.{rows_of};
ghost use Rattle.decision.specs.Decisions.{Windowed};

use crate::count::Releases;
use crate::curves::{Promise, Work};
use crate::search::met;
use fault::{Fault, Rule};
use supply::Supply;
use table::Table;

pub const LONGEST_WINDOW: u32 = 1_000_000;

// L, the least number of ticks, from one to a million, in which the supply promises all that the table can release;
// refused with 43 where there is none.
pub fn busy_window<S: Supply>(table: &Table, supply: &S) -> Result<u32, Fault>
    ensures { Windowed (rows_of table.now) (S.Supply.bound supply.now) result }
{
    let released = Work {
        rows: table.rows(),
        counted: Releases,
    };
    let open = Rule::WindowCloses.broken_at(0, LONGEST_WINDOW);
    met(&released, &Promise { supply }, 1, LONGEST_WINDOW).ok_or(open)
}
