// The texts in which numbers come and go: up to 17 lines of three fields, read into triples and written from them.
#![tactic(auto)]

mod field;
mod line;
mod lines;
mod order;
mod policy;
mod read;
mod sizes;
mod triple;
mod write;

// What a text holds.
pub use lines::Lines;
pub use policy::Policy;
pub use triple::Triple;

// How large a text can be.
pub use sizes::{LINE, LONGEST, MOST_LINES};

// Reading and writing.
pub use read::{read_lines, read_table};
pub use write::{write_lines, write_table};
