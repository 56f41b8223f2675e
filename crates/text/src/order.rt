// The order, which is the first number of a table.
ghost use Rattle.std.specs.Prelude.{◌≡◌};
ghost use Rattle.text.specs.Texts.{order_of};
ghost use Rattle.text.specs.Reading.{order_checked};

use crate::policy::Policy;
use crate::triple::Triple;
use fault::Fault;

// The first number of all, or 0, which is no order, where there is none; the definition has the same.
fn order_of(triples: &[Triple]) -> u32
    ensures { result ≡ order_of triples.now }
{
    triples.first().map_or(0, |head| head.first)
}

// Refuses triples that do not begin with an order.
pub(crate) fn check_order(triples: &[Triple]) -> Result<(), Fault>
    ensures { result ≡ order_checked triples.now }
{
    Policy::try_from(order_of(triples))?;
    Ok(())
}
