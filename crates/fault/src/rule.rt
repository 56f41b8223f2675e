// The rules that can be broken.
ghost use Rattle.std.specs.Prelude.{◌≡◌};
ghost use Rattle.fault.specs.Rules.{fault_of, rule_layer, rule_number};

use crate::fault::Fault;
use crate::layer::Layer;

// Each rule is named by what it asks, and has its number in the table of faults.
#[derive(Clone, Copy, PartialEq, Eq, Debug)]
pub enum Rule {
    WholeLines = 11,
    LineFeed = 12,
    WellFormed = 13,
    KnownOrder = 14,
    RoomToWrite = 15,
    Reservation = 21,
    RoomForRow = 31,
    RowBounds = 32,
    RowInTime = 41,
    NoOverload = 42,
    WindowCloses = 43,
    RowInTable = 51,
    PeriodPassed = 52,
    JobPending = 53,
    ClockGoesOn = 54,
    RoomForJobs = 55,
}

impl Rule {
    // The rule's number in the table of faults.
    pub fn number(self) -> u32
        ensures { result ≡ rule_number self }
    {
        self as u32
    }

    // The layer that asks for it.
    pub fn layer(self) -> Layer
        ensures { result ≡ rule_layer self }
    {
        match self {
            Rule::WholeLines
            | Rule::LineFeed
            | Rule::WellFormed
            | Rule::KnownOrder
            | Rule::RoomToWrite => Layer::Text,
            Rule::Reservation => Layer::Supply,
            Rule::RoomForRow | Rule::RowBounds => Layer::Table,
            Rule::RowInTime | Rule::NoOverload | Rule::WindowCloses => Layer::Decision,
            Rule::RowInTable
            | Rule::PeriodPassed
            | Rule::JobPending
            | Rule::ClockGoesOn
            | Rule::RoomForJobs => Layer::Run,
        }
    }

    // The refusal of what breaks the rule at this place.
    pub fn broken_at(self, first: u32, second: u32) -> Fault
        ensures { result ≡ fault_of self first second }
    {
        Fault {
            rule: self,
            place: (first, second),
        }
    }
}
