// What C calls: a list crosses as a pointer and then a length.
use crate::answer::numbers;
use crate::measure::{busy_table, stretches};
use crate::play::play;
use crate::setting::{read_head, read_server, read_table};
use crate::words::Written;
use dispatch::Reply;
use fault::Fault;
use order::{EarliestDeadline, FixedPriority};
use run::Run;
use supply::PeriodicServer;

// As C numbers the orders; any other number is earliest deadline.
const FIXED_PRIORITY: u32 = 1;

// Makes the run of a script, carries out its calls and writes the replies.
fn probe(script: &[u32], written: &mut Written<'_>) -> Result<(), Fault> {
    let mut script = script.iter();
    let head = read_head(&mut script);
    let server = read_server(head, &mut script)?;
    let table = read_table(head, &mut script)?;
    // A run's type names its order, so this choice and that of `ticks` are two: one would take a trait for what follows.
    if head.order == FIXED_PRIORITY {
        let mut run = Run::new(&table, server, FixedPriority {});
        play(&mut run, head.calls, &mut script, written);
    } else {
        let mut run = Run::new(&table, server, EarliestDeadline {});
        play(&mut run, head.calls, &mut script, written);
    }
    Ok(())
}

// Makes the run of a script, carries out its calls and writes their answers; tells how many numbers that took. Where
// the server or a row is refused, that is the only answer.
#[unsafe(no_mangle)]
pub extern "C" fn timerdaisy_probe(script: &[u32], out: &mut [u32]) -> usize {
    let mut written = Written::new(out);
    if let Err(fault) = probe(script, &mut written) {
        written.put_all(numbers(Reply::Refused(fault)));
    }
    written.count()
}

fn ticks(order: u32, rows: u32, ticks: u32) -> Result<u64, Fault> {
    let server = PeriodicServer::new(7, 10)?;
    let table = busy_table(rows)?;
    if order == FIXED_PRIORITY {
        let mut run = Run::new(&table, server, FixedPriority {});
        Ok(stretches(&mut run, ticks))
    } else {
        let mut run = Run::new(&table, server, EarliestDeadline {});
        Ok(stretches(&mut run, ticks))
    }
}

// Passes so many ticks of a run with so many rows pending, and tells the sum of all that they told; 0 for a refusal, as C
// has it.
#[unsafe(no_mangle)]
pub extern "C" fn timerdaisy_ticks(order: u32, rows: u32, count: u32) -> u64 {
    ticks(order, rows, count).unwrap_or(0)
}
