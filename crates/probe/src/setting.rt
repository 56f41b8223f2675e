// What a run is made of, read from a script: its order, Q, P, the number of offers, of rows and of calls; then each
// offer; then C, T, D of each row; then the calls.
use crate::words::next;
use fault::Fault;
use std::slice::Iter;
use supply::{PeriodicServer, Supply};
use table::Table;

// The six numbers that a script begins with.
#[derive(Clone, Copy)]
pub(crate) struct Head {
    pub order: u32,
    pub budget: u32,
    pub period: u32,
    pub offers: u32,
    pub rows: u32,
    pub calls: u32,
}

pub(crate) fn read_head(script: &mut Iter<'_, u32>) -> Head {
    Head {
        order: next(script),
        budget: next(script),
        period: next(script),
        offers: next(script),
        rows: next(script),
        calls: next(script),
    }
}

// The server, after a tick with each of the offers.
pub(crate) fn read_server(head: Head, script: &mut Iter<'_, u32>) -> Result<PeriodicServer, Fault> {
    let mut server = PeriodicServer::new(head.budget, head.period)?;
    for _ in 0..head.offers {
        let _ = server.tick(next(script) != 0);
    }
    Ok(server)
}

pub(crate) fn read_table(head: Head, script: &mut Iter<'_, u32>) -> Result<Table, Fault> {
    let mut table = Table::new();
    for _ in 0..head.rows {
        let cost = next(script);
        let period = next(script);
        let deadline = next(script);
        table.add(cost, period, deadline)?;
    }
    Ok(table)
}
