// What can be asked of a run.

// A release or an end of a row, counted from 1; a tick with the host's offer; a look at the counters; the pending jobs,
// with room for so many records.
#[derive(Clone, Copy, PartialEq, Eq, Debug)]
pub enum Call {
    Release(u32),
    End(u32),
    Tick(bool),
    Look,
    Pending(usize),
}
