// What is told of a step and of a refusal, in words.
use crate::names::step_name;
use fault::{Fault, Rule};
use std::fmt;
use table::Row;

// A row in columns: its number, counted from 1, the name of its step, its cost and its period.
#[derive(Drop)]
pub struct Step<'a> {
    pub number: u32,
    pub row: &'a Row,
}

impl<'a> fmt::Display for Step<'a> {
    fn fmt<W: fmt::Write>(&self, f: &mut fmt::Formatter<W>) -> fmt::Result {
        let name = step_name(self.number);
        write!(
            f,
            "{:>3}  {name:<12}  {:>6}  {:>6}",
            self.number, self.row.cost, self.row.period
        )
    }
}

// Why a table text was refused, and where.
#[derive(Drop)]
pub struct Reason(pub Fault);

impl fmt::Display for Reason {
    fn fmt<W: fmt::Write>(&self, f: &mut fmt::Formatter<W>) -> fmt::Result {
        let (first, second) = self.0.place;
        match self.0.rule {
            Rule::WholeLines => write!(f, "the text is not 1 to 17 whole lines of 25 bytes."),
            Rule::LineFeed => write!(f, "line {first} does not end in a line feed."),
            Rule::WellFormed => write!(
                f,
                "field {second} of line {first} is not a right-justified number."
            ),
            Rule::KnownOrder => write!(f, "the order is neither 1 nor 2."),
            Rule::RoomToWrite => write!(f, "a list of {second} bytes is too short."),
            Rule::Reservation => write!(f, "{first} of every {second} ticks cannot be reserved."),
            Rule::RoomForRow => write!(f, "the table has {first} rows already."),
            Rule::RowBounds => write!(f, "row {first}, {}, breaks its bounds.", step_name(first)),
            Rule::RowInTime => write!(
                f,
                "row {first}, {}, can take longer than its deadline of {second} ticks.",
                step_name(first)
            ),
            Rule::NoOverload => write!(
                f,
                "in {second} ticks more work can be due than the supply promises."
            ),
            Rule::WindowCloses => write!(
                f,
                "the busy window does not close within {second} ticks."
            ),
            Rule::RowInTable => write!(f, "row {first} is none of the table's {second}."),
            Rule::PeriodPassed => write!(f, "row {first} is released {second} ticks too soon."),
            Rule::JobPending => write!(f, "row {first} has no pending job."),
            Rule::ClockGoesOn => write!(f, "the clock is at its end."),
            Rule::RoomForJobs => write!(
                f,
                "the list has room for {second} of {first} pending jobs."
            ),
        }
    }
}
