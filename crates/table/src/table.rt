// A table: up to sixteen rows, in the order in which they were added.
ghost use Rattle.std.specs.Prelude.{◌≡◌, ◌≤◌, [], length};

use crate::row::Row;
use bounded::Bounded;
use fault::{Fault, Rule};

// The most rows of a table.
pub const MOST_ROWS: usize = 16;

#[derive(Clone, Copy)]
pub struct Table {
    rows: Bounded<Row, MOST_ROWS>,
}

impl Table {
    ghost use Rattle.table.specs.Tables.{rows_of, Added};

    // A table without rows.
    pub fn new() -> Table
        ensures { rows_of result ≡ [] }
    {
        let unused = Row {
            cost: 1,
            period: 1,
            deadline: 1,
        };
        Table {
            rows: Bounded::new(unused),
        }
    }

    pub fn rows(&self) -> &[Row]
        ensures rows { result.now ≡ rows_of self.now }
        ensures few { length result.now ≤ 16 }
    {
        self.rows.items()
    }

    // Puts a row last, or refuses it and leaves the table as it was. It takes three numbers, since a `Row` out of its
    // bounds cannot be had.
    pub fn add(&mut self, cost: u32, period: u32, deadline: u32) -> Result<(), Fault>
        ensures { Added cost period deadline self.old self.new result }
    {
        let full = Rule::RoomForRow.broken_at(MOST_ROWS as u32, 0);
        if self.rows.is_full() {
            return Err(full);
        }
        let number = self.rows().len() as u32 + 1;
        let row = Row::new(cost, period, deadline).ok_or(Rule::RowBounds.broken_at(number, 0))?;
        self.rows.push(row).or(Err(full))
    }
}
