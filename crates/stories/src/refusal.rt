// What the stories expect of a refusal.
ghost use Rattle.std.specs.Prelude.{◌≡◌, Some, None, OnOk, IfErr};
ghost use Rattle.fault.specs.Rules.{fault_layer, fault_number};

use fault::{Fault, Layer};

// The number, layer and place of a refusal, if there is one.
pub(crate) fn refusal<T: Drop>(answer: Result<T, Fault>) -> Option<(u32, Layer, (u32, u32))>
    ensures none { OnOk answer (result ≡ None) }
    ensures told { IfErr answer (λ f. result ≡ Some (fault_number f, fault_layer f, f.place)) }
{
    answer
        .err()
        .map(|fault| (fault.number(), fault.layer(), fault.place))
}
