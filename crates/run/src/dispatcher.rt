// What a run holds besides its supply and its order: the rows with their pending jobs, the clock and the counters.
ghost use Rattle.std.specs.Prelude.{◌≤◌};
ghost use Rattle.bounded.specs.Items.{items_of};
ghost use Rattle.dispatch.specs.Orderly.{Orderly};

use crate::counters::Counters;
use crate::rows::Rows;

pub(crate) mod call;
pub(crate) mod list;
pub(crate) mod tick;

#[derive(Clone, Copy)]
pub(crate) struct Dispatcher {
    rows: Rows,
    clock: u32,
    counters: Counters,
    ghost early: { clock ≤ 4000000000 },
    ghost orderly: { ∥ Orderly clock 1 (items_of rows) ∥₁ },
    ghost fewer: { counters.granted ≤ clock },
}
