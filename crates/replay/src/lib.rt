// A recorded list of calls, run again: what a new run answers to each, and what holds of every such list.
#![tactic(auto)]

ghost use Rattle.std.specs.Prelude.{◌≡◌, ℕ, IfOk, Ok};
ghost use Rattle.table.specs.Tables.{rows_of};
ghost use Rattle.decision.specs.Decisions.{Window};
ghost use Rattle.order.specs.Orders.{goes_by};
ghost use Rattle.dispatch.specs.Runs.{fresh, replies, after_all};
ghost use Rattle.dispatch.specs.Promises.{Each, InTime, Conserved, Counted, QuietWithin};

use dispatch::{Call, Reply};
use order::Order;
use run::Run;
use std::alloc::{AllocError, Global};
use supply::Supply;
use table::Table;

// Makes a run of the table, the supply and the order, carries out the calls and answers the reply to each, in order.
//
// - If the order's test accepts the table over the supply, no tick misses a job, and none ends older than its row's
//   limit.
// - If the busy window closes at l, then among any l ticks in a row one ends with nothing pending.
// - No job is lost or made up, and the counters are what the ticks answered.
//
// The supply's step and the order's relation are written out in the clauses: a definition in specs/ has no bounds to take
// them from.
pub fn replay<S: Supply + Drop, O: Order + Drop>(
    heap: Global,
    table: &Table,
    supply: S,
    order: O,
    calls: &[Call],
) -> Result<Vec<Reply>, AllocError>
    ensures replies { IfOk result (λ v. v.items ≡ replies S.step (goes_by O.keyed O.before order) calls.now (fresh (rows_of table.now) supply)) }
    ensures accepted_table_misses_no_job { IfOk result (λ v. (a : O.Accepted) → O.tested order (rows_of table.now) (S.bound supply) (Ok a) → Each (InTime (O.limit order (rows_of table.now) a)) calls.now v.items) }
    ensures busy_window_ends { (l : ℕ) → Window (rows_of table.now) (S.bound supply) l → QuietWithin S.step (goes_by O.keyed O.before order) l (fresh (rows_of table.now) supply) }
    ensures no_job_is_lost_or_made_up { IfOk result (λ v. Conserved v.items (after_all S.step (goes_by O.keyed O.before order) calls.now (fresh (rows_of table.now) supply))) }
    ensures counters_tell_the_ticks { IfOk result (λ v. Counted v.items (after_all S.step (goes_by O.keyed O.before order) calls.now (fresh (rows_of table.now) supply))) }
{
    let mut run = Run::new(table, supply, order);
    let mut replies = Vec::new(heap);
    for call in calls {
        replies.push(run.reply(*call))?;
    }
    Ok(replies)
}
