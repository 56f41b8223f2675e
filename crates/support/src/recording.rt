// A recorded day, run again over a periodic server by earliest deadline.
ghost use Rattle.std.specs.Prelude.{vec_items};
ghost use Rattle.table.specs.Tables.{rows_of};
ghost use Rattle.fault.specs.Steps.{map_ok};
ghost use Rattle.support.specs.Recordings.{Replayed};

use crate::failure::Failure;
use dispatch::{Call, Reply};
use order::{EarliestDeadline, Order};
use replay::replay;
use std::alloc::Global;
use supply::PeriodicServer;
use table::Table;

// The replies of a new run over a fresh server to the calls. Where earliest deadline does not accept the table, its
// fault; so in what is answered no job is missed and none ends past its deadline.
pub fn replay_by_deadline(
    heap: Global,
    table: &Table,
    budget: u32,
    period: u32,
    calls: &[Call],
) -> Result<Vec<Reply>, Failure>
    ensures { Replayed (rows_of table.now) budget period calls.now (map_ok vec_items result) }
{
    let server = PeriodicServer::new(budget, period)?;
    let order = EarliestDeadline {};
    order.test(table, &server)?;
    Ok(replay(heap, table, server, order, calls)?)
}
