// Jobs, and the rows of a table as a run holds them.
use table::Row;

// A job: the number of its row, counted from 1, the clock at its release, and the clock by which it is due.
#[derive(Clone, Copy, PartialEq, Eq, Debug)]
pub struct Job {
    pub row: u32,
    pub release: u32,
    pub deadline: u32,
}

// A pending job: it wants `cost` ticks in all, and has run for `ran`.
#[derive(Clone, Copy)]
pub struct Active {
    pub job: Job,
    pub cost: u32,
    pub ran: u32,
}

// A row with its pending job, if there is one, and the first clock at which its next release is accepted.
#[derive(Clone, Copy)]
pub struct RowState {
    pub row: Row,
    pub active: Option<Active>,
    pub next: u32,
}
