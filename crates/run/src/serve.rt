// What a tick does to the rows: the first job runs, and the jobs that are due are struck off.
ghost use Rattle.std.specs.Prelude.{◌≡◌, ◌-◌, ◌<◌, ◌≤◌, length, IfSome};
ghost use Rattle.order.specs.Orders.{goes_by};
ghost use Rattle.dispatch.specs.Jobs.{with_active};
ghost use Rattle.dispatch.specs.Ticks.{first, served, progress, kept, struck, missed, lowest};
ghost use Rattle.run.specs.Holding.{ticked_at};
ghost use Rattle.run.specs.Serving.{leads, struck_row, Servable};

use dispatch::{Active, Progress, RowState, Ticked};
use order::Order;
use supply::Grant;

// Whether the first row has a job that goes before the second's, if that has one.
fn leads<O: Order>(order: &O, a: &RowState, b: &RowState) -> bool
    ensures { result ≡ leads (goes_by O.keyed O.before order.now) a.now.active b.now.active }
{
    let Some(mine) = a.active else {
        return false;
    };
    let Some(theirs) = b.active else {
        return true;
    };
    order.goes_first(order.key(mine.job), order.key(theirs.job))
}

// The pending job that goes first.
pub(crate) fn first<O: Order>(order: &O, rows: &[RowState]) -> Option<Active>
    ensures { result ≡ first (goes_by O.keyed O.before order.now) rows.now }
{
    let best = rows.iter().rev().reduce(|best, row| if leads(order, row, best) {
        row
    } else {
        best
    })?;
    best.active
}

// Has the chosen job run for a granted tick that ends at this clock. The four kinds of tick are one match with guards, as
// the rules of the project ask.
fn credit(rows: &mut [RowState], grant: Grant, chosen: Option<Active>, clock: u32) -> Progress
    requires { IfSome chosen (Servable clock (length rows.old)) }
    ensures rows { rows.new ≡ served grant chosen rows.old }
    ensures progress { result ≡ progress grant chosen clock }
{
    match (grant, chosen) {
        (Grant::Withheld, _) => Progress::Withheld,
        (Grant::Granted, None) => Progress::Idle,
        (Grant::Granted, Some(active)) if active.ran + 1 < active.cost => {
            let row = active.job.row;
            rows[row as usize - 1].active = Some(Active {
                ran: active.ran + 1,
                ..active
            });
            Progress::Ran(row)
        }
        (Grant::Granted, Some(active)) => {
            let row = active.job.row;
            rows[row as usize - 1].active = None;
            Progress::Ended(row, clock - active.job.release)
        }
    }
}

// Strikes off the row's job if it is due at this clock, and answers its row then.
fn strike_row(row: &mut RowState, clock: u32) -> Option<u32>
    ensures row { row.new ≡ with_active (kept clock row.old.active) row.old }
    ensures struck { result ≡ struck_row clock row.old.active }
{
    match row.active {
        Some(active) if active.job.deadline == clock => {
            row.active = None;
            Some(active.job.row)
        }
        _ => None,
    }
}

// Strikes off the jobs that are due at this clock, and answers how many and the lowest of their rows, or 0.
fn strike(rows: &mut [RowState], clock: u32) -> (u32, u32)
    requires { length rows.old ≤ 16 }
    ensures rows { rows.new ≡ struck clock rows.old }
    ensures missed { result.0 ≡ missed clock rows.old }
    ensures lowest { result.1 ≡ lowest clock rows.old }
{
    let mut missed: u32 = 0;
    let mut lowest: Option<u32> = None;
    for row in rows.iter_mut() {
        if let Some(number) = strike_row(row, clock) {
            missed += 1;
            lowest = lowest.or(Some(number));
        }
    }
    (missed, lowest.unwrap_or(0))
}

// Passes a tick that ends at this clock: work is credited before deadlines are struck. The grant and the job that it
// lets run stay two values: what a tick does is defined over both, and a struct of them would be taken apart here.
pub(crate) fn pass(
    rows: &mut [RowState],
    grant: Grant,
    chosen: Option<Active>,
    clock: u32,
) -> Ticked
    requires few { length rows.old ≤ 16 }
    requires chosen { IfSome chosen (Servable clock (length rows.old)) }
    ensures rows { rows.new ≡ struck clock (served grant chosen rows.old) }
    ensures answer { result ≡ ticked_at clock grant chosen rows.old }
{
    let progress = credit(rows, grant, chosen, clock);
    let (missed, lowest) = strike(rows, clock);
    Ticked {
        progress,
        missed,
        lowest,
    }
}
