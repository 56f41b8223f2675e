// One tick of the dispatcher.
ghost use Rattle.std.specs.Prelude.{◌≡◌, ◌+◌, ◌<◌};
ghost use Rattle.order.specs.Orders.{goes_by};
ghost use Rattle.dispatch.specs.Ticks.{Goes, first};
ghost use Rattle.run.specs.Holding.{jobs_state, passed_by, ticked_by, in_time_to_tick};
ghost use Rattle.run.specs.Serving.{if_granted};

use super::Dispatcher;
use crate::serve::{first, pass};
use dispatch::{Active, Ticked};
use fault::{Fault, Rule};
use order::Order;
use supply::Grant;

const LAST_CLOCK: u32 = 4_000_000_000;

impl Dispatcher {
    // The job to run in a tick that was granted or withheld: the pending job that goes first, if it was granted.
    pub(crate) fn chosen<O: Order>(&self, grant: Grant, order: &O) -> Option<Active>
        ensures { result ≡ if_granted grant (first (goes_by O.keyed O.before order.now) (jobs_state self.now).rows) }
    {
        match grant {
            Grant::Withheld => None,
            Grant::Granted => first(order, self.rows.items()),
        }
    }

    // Passes a tick that was granted or withheld, with the job to run, which goes first by some order.
    pub(crate) fn pass(&mut self, grant: Grant, chosen: Option<Active>) -> Ticked
        requires early { self.old.clock < 4000000000 }
        requires first { (goes : Goes) × (chosen ≡ if_granted grant (first goes (jobs_state self.old).rows)) }
        ensures answer { result ≡ ticked_by grant chosen (jobs_state self.old) }
        ensures state { jobs_state self.new ≡ passed_by grant chosen (jobs_state self.old) }
    {
        let clock = self.clock + 1;
        let ticked = self.rows.change(|rows| pass(rows, grant, chosen, clock));
        self.clock = clock;
        self.counters = self.counters.and(ticked.progress);
        ticked
    }

    // Whether a tick may pass: refused with 54 at the last clock.
    pub(crate) fn may_tick(&self) -> Result<(), Fault>
        ensures { result ≡ in_time_to_tick self.now.clock }
    {
        if self.clock >= LAST_CLOCK {
            return Err(Rule::ClockGoesOn.broken_at(0, 0));
        }
        Ok(())
    }
}
