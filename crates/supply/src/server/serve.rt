// The periodic server as a supply.
ghost use Rattle.std.specs.Prelude.{refl};
ghost use Rattle.supply.specs.declared.grant.Grant.{Grant};
ghost use Rattle.supply.specs.Server.{server_bound, server_floor, server_step};
ghost use Rattle.supply.specs.PeriodicLemmas.{server_covered, server_superadditive, server_spending};

use super::PeriodicServer;
use crate::grant::Grant;
use crate::interface::Supply;

const LONGEST_STRETCH: u32 = 1_000_000;

impl Supply for PeriodicServer {
    ghost bound = { server_bound };

    ghost floor = { server_floor };

    ghost step = { server_step };

    ghost empty = { λ _. refl };

    ghost covered = { server_covered };

    ghost superadditive = { server_superadditive };

    ghost lasting = { λ _ _ _. refl };

    ghost spending = { server_spending };

    fn bound(&self, t: u32) -> Option<u32> {
        if t > LONGEST_STRETCH {
            return None;
        }
        let idle = self.period - self.budget;
        if t <= idle {
            return Some(0);
        }
        let served = t - idle;
        let whole = (served / self.period) * self.budget;
        let part = served % self.period;
        if part <= idle {
            Some(whole)
        } else {
            Some(whole + (part - idle))
        }
    }

    fn tick(&mut self, offer: bool) -> Grant {
        let granted = self.owed >= 1 && (offer || self.owed == self.remaining);
        let owed = if granted { self.owed - 1 } else { self.owed };
        let remaining = self.remaining - 1;
        if remaining == 0 {
            self.remaining = self.period;
            self.owed = self.budget;
        } else {
            self.remaining = remaining;
            self.owed = owed;
        }
        Grant::from(granted)
    }
}
