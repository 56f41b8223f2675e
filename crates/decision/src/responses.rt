// The response times of a table's rows, in the table's order.
ghost use Rattle.std.specs.Prelude.{◌≡◌, ◌<◌, ◌≤◌, [], ◌∷◌, ◌++◌, length};

use bounded::Bounded;
use table::MOST_ROWS;

#[derive(Clone, Copy)]
pub struct Responses {
    times: Bounded<u32, MOST_ROWS>,
}

impl Responses {
    ghost use Rattle.decision.specs.Responses.{responses_of};

    pub(crate) fn new() -> Responses
        ensures { responses_of result ≡ [] }
    {
        Responses {
            times: Bounded::new(0),
        }
    }

    // Puts the response of one more row last.
    pub(crate) fn push(&mut self, time: u32)
        requires { length (responses_of self.old) < 16 }
        ensures { responses_of self.new ≡ responses_of self.old ++ time ∷ [] }
    {
        match self.times.push(time) {
            Ok(()) => (),
            Err(_) => unreachable(),
        }
    }

    pub fn times(&self) -> &[u32]
        ensures times { result.now ≡ responses_of self.now }
        ensures few { length result.now ≤ 16 }
    {
        self.times.items()
    }
}
