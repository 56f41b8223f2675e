// What a branch sees of a run, tick by tick, one story a test.
use crate::refusal::refusal;
use dispatch::{Job, Progress, Ticked};
use fault::Layer;
use order::{EarliestDeadline, FixedPriority};
use run::Run;
use std::test::Fail;
use supply::{PeriodicServer, Supply};
use table::Table;

// A tick that missed no job.
fn in_time(progress: Progress) -> Ticked {
    Ticked {
        progress,
        missed: 0,
        lowest: 0,
    }
}

// A second job of a row at the same clock is too early by a whole period, and the first one stays.
#[test]
fn a_row_released_twice_at_one_clock(rt: HostRuntime) -> Result<(), Fail> {
    let mut table = Table::new();
    table.add(2, 7, 7)?;
    let mut run = Run::new(&table, PeriodicServer::new(1, 1)?, FixedPriority {});
    run.release(1)?;
    assert_eq!(rt; refusal(run.release(1)), Some((52, Layer::Run, (1, 7))));
    assert_eq!(rt; run.tick(false)?, in_time(Progress::Ran(1)));
    assert_eq!(rt; run.tick(false)?, in_time(Progress::Ended(1, 2)));
    Ok(())
}

// Work is credited before deadlines are struck: one job ends on its deadline, the other wants a tick more then.
#[test]
fn an_end_on_the_deadline_is_no_miss(rt: HostRuntime) -> Result<(), Fail> {
    let mut table = Table::new();
    table.add(2, 5, 2)?;
    table.add(1, 5, 2)?;
    let mut run = Run::new(&table, PeriodicServer::new(1, 1)?, FixedPriority {});
    run.release(2)?;
    run.release(1)?;
    assert_eq!(rt; run.tick(false)?, in_time(Progress::Ran(1)));
    let last = Ticked {
        progress: Progress::Ended(1, 2),
        missed: 1,
        lowest: 2,
    };
    assert_eq!(rt; run.tick(false)?, last);
    assert_eq!(rt; refusal(run.end(2)), Some((53, Layer::Run, (2, 0))));
    Ok(())
}

// A release is refused one tick before the period is over, and accepted as it is over.
#[test]
fn releases_exactly_a_period_apart(rt: HostRuntime) -> Result<(), Fail> {
    let mut table = Table::new();
    table.add(1, 2, 2)?;
    let mut run = Run::new(&table, PeriodicServer::new(1, 2)?, EarliestDeadline {});
    run.release(1)?;
    assert_eq!(rt; run.tick(true)?, in_time(Progress::Ended(1, 1)));
    assert_eq!(rt; refusal(run.release(1)), Some((52, Layer::Run, (1, 1))));
    assert_eq!(rt; run.tick(true)?, in_time(Progress::Withheld));
    run.release(1)?;
    assert_eq!(rt; run.tick(true)?, in_time(Progress::Ended(1, 1)));
    let told = run.look();
    assert_eq!(rt; (told.clock, told.granted), (3, 2));
    assert_eq!(rt; (told.ran, told.idle), (2, 0));
    Ok(())
}

// A job that is ended before it ran is gone, and its row waits for its period all the same.
#[test]
fn an_end_before_the_first_tick(rt: HostRuntime) -> Result<(), Fail> {
    let mut table = Table::new();
    table.add(1, 3, 3)?;
    let mut run = Run::new(&table, PeriodicServer::new(1, 1)?, EarliestDeadline {});
    run.release(1)?;
    assert_eq!(rt; run.end(1), Ok(0));
    assert_eq!(rt; refusal(run.end(1)), Some((53, Layer::Run, (1, 0))));
    assert_eq!(rt; run.tick(true)?, in_time(Progress::Idle));
    assert_eq!(rt; refusal(run.release(1)), Some((52, Layer::Run, (1, 2))));
    Ok(())
}

// The job that is due first goes first; the list of pending jobs has to have room, and is left alone beyond them.
#[test]
fn pending_jobs_are_listed(rt: HostRuntime) -> Result<(), Fail> {
    let mut table = Table::new();
    table.add(1, 9, 9)?;
    table.add(1, 9, 5)?;
    let mut run = Run::new(&table, PeriodicServer::new(1, 1)?, EarliestDeadline {});
    run.release(1)?;
    run.release(2)?;
    let unused = Job {
        row: 7,
        release: 7,
        deadline: 7,
    };
    let mut list = [unused; 2];
    assert_eq!(rt;
        refusal(run.pending(&mut list[0..1])),
        Some((55, Layer::Run, (2, 1)))
    );
    assert_eq!(rt; run.tick(false)?, in_time(Progress::Ended(2, 1)));
    assert_eq!(rt; run.pending(&mut list), Ok(1));
    assert_eq!(rt; (list[0].row, list[0].deadline), (1, 9));
    assert_eq!(rt; (list[1].row, list[1].deadline), (7, 7));
    Ok(())
}
