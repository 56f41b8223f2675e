// Lists of at most so many items, held in place: nothing is allocated, and their size is known.
#![tactic(auto)]

mod bounded;

pub use bounded::{Bounded, Full};
