// What support sees of a recording that is run again.
use dispatch::{Call, Progress, Reply, Ticked};
use fault::Layer;
use std::test::Fail;
use support::{Failure, replay_by_deadline};
use table::Table;

// Each call of the recording is answered, in order, the refused one too; an accepted table misses nothing.
#[test]
fn a_recorded_day_is_run_again(rt: HostRuntime) -> Result<(), Fail> {
    let mut table = Table::new();
    table.add(1, 4, 4)?;
    let day = [
        Call::Release(1),
        Call::Release(2),
        Call::Tick(true),
        Call::Pending(0),
    ];
    let replies = replay_by_deadline(rt.alloc(), &table, 1, 2, &day)?;
    assert!(rt; replies.len() == 4);
    let ticked = Ticked {
        progress: Progress::Ended(1, 1),
        missed: 0,
        lowest: 0,
    };
    assert_eq!(rt; replies[0], Reply::Released);
    let Reply::Refused(fault) = replies[1] else {
        return Err(Fail::new("the table has one row"));
    };
    assert_eq!(rt;
        (fault.number(), fault.layer(), fault.place),
        (51, Layer::Run, (2, 1))
    );
    assert_eq!(rt; replies[2], Reply::Ticked(ticked));
    assert_eq!(rt; replies[3], Reply::Pending(0));
    Ok(())
}

// A table that its reservation does not cover is not run.
#[test]
fn an_overloaded_table_is_not_run(rt: HostRuntime) -> Result<(), Fail> {
    let mut table = Table::new();
    table.add(1, 2, 2)?;
    table.add(1, 2, 2)?;
    match replay_by_deadline(rt.alloc(), &table, 3, 4, &[]) {
        Ok(_) => Err(Fail::new("accepted")),
        Err(Failure::Refused(fault)) => {
            assert!(rt; fault.number() == 43);
            Ok(())
        },
        Err(Failure::NoMemory) => Err(Fail::new("no memory")),
    }
}
