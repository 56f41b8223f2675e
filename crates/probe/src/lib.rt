// Runs for the tests and measurements that are written in C. No user of the library needs this crate.
//
// `words` reads and writes lists of numbers; `setting` reads from a script what a run is made of, and `answer` puts what
// a call answered into numbers; `play` carries out the calls of a script, and `measure` passes many ticks. `export` is
// what C calls.
#![tactic(auto)]

mod answer;
pub mod export;
mod measure;
mod play;
mod setting;
mod words;

pub use export::{timerdaisy_probe, timerdaisy_ticks};
