// A periodic server: a budget of ticks in every period, which ticks being the host's affair.
ghost use Rattle.std.specs.Prelude.{◌≡◌, IfOk};
ghost use Rattle.supply.specs.Periodic.{InRange, InPeriod, Owed};

use fault::{Fault, Rule};

pub mod serve;

const LONGEST_PERIOD: u32 = 100_000;

// `remaining` ticks are left in the present period, and `owed` grants are still due in it.
#[derive(Clone, Copy)]
pub struct PeriodicServer {
    budget: u32,
    period: u32,
    remaining: u32,
    owed: u32,
    ghost range: { InRange budget period },
    ghost time: { InPeriod period remaining },
    ghost due: { Owed budget period remaining owed },
}

impl PeriodicServer {
    ghost use Rattle.supply.specs.Least.{LeastGrants};
    ghost use Rattle.supply.specs.Reserved.{Reserved};
    ghost use Rattle.supply.specs.Server.{server_bound, server_step, WorstCase};

    // A fresh server, at the start of a period. Its bound is the least number of grants over all states that it can
    // come to and all offers; all of it is met where the budget is offered at once, and then nothing. It takes two
    // numbers, since a server out of its range cannot be had.
    pub fn new(budget: u32, period: u32) -> Result<PeriodicServer, Fault>
        ensures fresh { Reserved budget period result }
        ensures least { IfOk result (λ s. LeastGrants (server_bound s) server_step s) }
        ensures worst { IfOk result WorstCase }
    {
        if budget < 1 || period < budget || period > LONGEST_PERIOD {
            return Err(Rule::Reservation.broken_at(budget, period));
        }
        Ok(PeriodicServer {
            budget,
            period,
            remaining: period,
            owed: budget,
        })
    }

    pub fn budget(&self) -> u32
        ensures { result ≡ self.now.budget }
    {
        self.budget
    }

    pub fn period(&self) -> u32
        ensures { result ≡ self.now.period }
    {
        self.period
    }
}
