// A row: each of its jobs costs `cost` ticks, comes at least `period` ticks after the last, and is due `deadline`
// ticks after its release.
ghost use Rattle.std.specs.Prelude.{◌≤◌};
ghost use Rattle.std.specs.Option.{MatchOption};

const LONGEST_PERIOD: u32 = 100_000;

#[derive(Clone, Copy)]
pub struct Row {
    pub cost: u32,
    pub period: u32,
    pub deadline: u32,
    ghost work: { (1 ≤ cost) × (cost ≤ deadline) },
    ghost time: { (deadline ≤ period) × (period ≤ 100000) },
}

impl Row {
    ghost use Rattle.table.specs.Rows.{InBounds, RowIs};

    // The row of a cost, a period and a deadline, where they are within their bounds.
    pub fn new(cost: u32, period: u32, deadline: u32) -> Option<Row>
        ensures { MatchOption result (InBounds cost period deadline → ⊥) (RowIs cost period deadline) }
    {
        if cost < 1 || deadline < cost || period < deadline || period > LONGEST_PERIOD {
            return None;
        }
        Some(Row {
            cost,
            period,
            deadline,
        })
    }
}
