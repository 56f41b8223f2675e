// The rows of a run, held in place.
ghost use Rattle.std.specs.Prelude.{◌≡◌, map};
ghost use Rattle.bounded.specs.Items.{items_of};
ghost use Rattle.table.specs.Tables.{rows_of};
ghost use Rattle.dispatch.specs.Jobs.{new_row};

use bounded::Bounded;
use dispatch::RowState;
use table::{MOST_ROWS, Row, Table};

pub(crate) type Rows = Bounded<RowState, MOST_ROWS>;

// The rows of the table, never released.
pub(crate) fn never_released(table: &Table) -> Rows
    ensures { items_of result ≡ map new_row (rows_of table.now) }
{
    let unused = Row {
        cost: 1,
        period: 1,
        deadline: 1,
    };
    let mut rows = Bounded::new(new_row(unused));
    for row in table.rows() {
        // a table has no more rows than there is room for
        let _ = rows.push(new_row(*row));
    }
    rows
}

// A row that was never released.
fn new_row(row: Row) -> RowState
    ensures { result ≡ new_row row }
{
    RowState {
        row,
        active: None,
        next: 0,
    }
}
