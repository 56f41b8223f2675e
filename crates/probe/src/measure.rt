// Many ticks of a run whose rows are pending nearly all the time.
use dispatch::Ticked;
use fault::Fault;
use order::Order;
use run::Run;
use supply::{PeriodicServer, Supply};
use table::Table;

// Every row asks for more ticks than the server gives, so that its jobs stay until they are due; it is released again
// then.
const LONGEST: u32 = 100_000;

const STRETCH: u32 = 6_250;

pub(crate) fn busy_table(rows: u32) -> Result<Table, Fault> {
    let mut table = Table::new();
    for _ in 0..rows {
        table.add(LONGEST, LONGEST, LONGEST)?;
    }
    Ok(table)
}

// All that a tick told, in one number.
fn weighed(ticked: Ticked) -> u64 {
    let progress = ticked.progress;
    let ran = u64::from(progress.number()).wrapping_add(u64::from(progress.row()).wrapping_mul(5));
    let aged = ran.wrapping_add(u64::from(progress.age()).wrapping_mul(7));
    let missed = u64::from(ticked.missed).wrapping_mul(11);
    aged.wrapping_add(missed)
        .wrapping_add(u64::from(ticked.lowest).wrapping_mul(13))
}

// A stretch of ticks, and the sum of all that they told.
fn stretch<O: Order>(run: &mut Run<PeriodicServer, O>) -> u64 {
    let mut sum: u64 = 0;
    for i in 0..STRETCH {
        if let Ok(ticked) = run.tick(i & 4 != 0) {
            sum = sum.wrapping_add(weighed(ticked));
        }
    }
    sum
}

// Stretches of ticks up to so many; before each the next of sixteen rows is released, so that a row is released again
// after sixteen of them, which is its period.
pub(crate) fn stretches<O: Order>(run: &mut Run<PeriodicServer, O>, ticks: u32) -> u64 {
    let mut sum: u64 = 0;
    for i in 0..ticks / STRETCH {
        let _ = run.release(i % 16 + 1);
        sum = sum.wrapping_add(stretch(run));
    }
    sum
}
