// A refusal.
ghost use Rattle.std.specs.Prelude.{◌≡◌};
ghost use Rattle.fault.specs.Rules.{fault_layer, fault_number};

use crate::layer::Layer;
use crate::rule::Rule;

// It is made where the rule is checked, and passed up by `?` unchanged.
#[derive(Clone, Copy, PartialEq, Eq, Debug)]
pub struct Fault {
    pub rule: Rule,
    pub place: (u32, u32),
}

impl Fault {
    // The broken rule's number in the table of faults.
    pub fn number(self) -> u32
        ensures { result ≡ fault_number self }
    {
        self.rule.number()
    }

    // The layer that refused.
    pub fn layer(self) -> Layer
        ensures { result ≡ fault_layer self }
    {
        self.rule.layer()
    }
}
