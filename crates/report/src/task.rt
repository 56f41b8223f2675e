// What a table text asks to have decided.
ghost use Rattle.std.specs.Prelude.{◌≤◌, length};
ghost use Rattle.report.specs.Tasks.{RowsRead, TaskRead};

use fault::Fault;
use supply::PeriodicServer;
use table::Table;
use text::{Policy, Triple, read_table};

#[derive(Clone, Copy)]
pub struct Task {
    pub policy: Policy,
    pub server: PeriodicServer,
    pub table: Table,
}

// The table of the rows that the triples write, or the fault of the first that breaks its bounds.
fn read_rows(rows: &[Triple]) -> Result<Table, Fault>
    requires { length rows.now ≤ 16 }
    ensures { RowsRead rows.now result }
{
    let mut table = Table::new();
    for row in rows {
        table.add(row.first, row.second, row.third)?;
    }
    Ok(table)
}

// The task of a table text, or the first fault in it: in the text, then in the reservation, then in the rows.
pub fn read_task(bytes: &[u8]) -> Result<Task, Fault>
    ensures { TaskRead bytes.now result }
{
    let lines = read_table(bytes)?;
    let triples = lines.triples();
    let head = triples[0];
    let policy = Policy::try_from(head.first)?;
    let server = PeriodicServer::new(head.second, head.third)?;
    let table = read_rows(&triples[1..])?;
    Ok(Task {
        policy,
        server,
        table,
    })
}
