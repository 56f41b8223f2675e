// The scheduling policy, which is the order that a table names by its first number.
ghost use Rattle.text.specs.Policies.{NamesPolicy};

use fault::{Fault, Rule};
use std::fmt;

#[derive(Clone, Copy, PartialEq, Eq, Debug)]
pub enum Policy {
    FixedPriority,
    EarliestDeadline,
}

impl TryFrom<u32> for Policy {
    type Error = Fault;

    ghost try_from_gives = { NamesPolicy };

    fn try_from(number: u32) -> Result<Policy, Fault> {
        match number {
            1 => Ok(Policy::FixedPriority),
            2 => Ok(Policy::EarliestDeadline),
            _ => Err(Rule::KnownOrder.broken_at(1, 1)),
        }
    }
}

impl fmt::Display for Policy {
    fn fmt<W: fmt::Write>(&self, f: &mut fmt::Formatter<W>) -> fmt::Result {
        f.write_str(match self {
            Policy::FixedPriority => "fixed priority",
            Policy::EarliestDeadline => "earliest deadline",
        })
    }
}
