// Rows and tables: what a bank asks to have run.
//
// Every row keeps its bounds by its type, so nothing above has to check them again.
#![tactic(auto)]

pub mod row;
pub mod table;

pub use row::Row;
pub use table::{MOST_ROWS, Table};
