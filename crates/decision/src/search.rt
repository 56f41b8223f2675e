// The one search behind every decision: the least time at which one curve has reached another.
ghost use Rattle.std.specs.Prelude.{◌≡◌, ◌<◌, ◌≤◌};
ghost use Rattle.decision.specs.Least.{Least, Found};

use crate::curves::Curve;

// Looks, up to the time `last`, for the least at which a curve has reached `mark`.
#[derive(Drop)]
struct Climb<'a, C> {
    curve: &'a C,
    mark: u32,
    last: u32,
    ghost time: { last ≤ 1000000 },
}

impl<'a, C: Curve> Climb<'a, C> {
    // The least time up to `high`, where the curve has reached the mark at `high` and has not at `low`.
    fn halved(&self, mut low: u32, mut high: u32) -> u32
        requires order { low < high }
        requires within { high ≤ self.now.last }
        requires below { C.height self.now.curve.now low < self.now.mark }
        requires above { self.now.mark ≤ C.height self.now.curve.now high }
        ensures { Least (λ t. self.now.mark ≤ C.height self.now.curve.now t) low high result }
    {
        while high - low > 1 {
            let middle = low + (high - low) / 2;
            if self.curve.at(middle) >= self.mark {
                high = middle;
            } else {
                low = middle;
            }
        }
        high
    }

    // A time from `from` on at which the curve is still below the mark: the last before it would reach it if it rose
    // by one in each tick, as a periodic server's bound does at most, or `from` itself.
    fn guessed(&self, from: u32, height: u32) -> u32
        requires order { from ≤ self.now.last }
        requires is { height ≡ C.height self.now.curve.now from }
        requires below { height < self.now.mark }
        ensures from { from ≤ result }
        ensures to { result ≤ self.now.last }
        ensures below { C.height self.now.curve.now result < self.now.mark }
    {
        let gap = self.mark - height - 1;
        if gap <= self.last - from && self.curve.at(from + gap) < self.mark {
            return from + gap;
        }
        from
    }

    // The least time from `from` on: by a guess, doubling steps, and then by halves.
    fn reached(&self, from: u32) -> Option<u32>
        requires { from ≤ self.now.last }
        ensures { Found (λ t. self.now.mark ≤ C.height self.now.curve.now t) from self.now.last result }
    {
        let height = self.curve.at(from);
        if height >= self.mark {
            return Some(from);
        }
        let mut low = self.guessed(from, height);
        let mut step: u32 = 1;
        while step < self.last - low {
            let high = low + step;
            if self.curve.at(high) >= self.mark {
                return Some(self.halved(low, high));
            }
            low = high;
            step *= 2;
        }
        if self.curve.at(self.last) < self.mark {
            return None;
        }
        Some(self.halved(low, self.last))
    }
}

// The least time from `from` to `last` at which `given` is as high as `asked`. From a time t it goes on to the least
// at which `given` is as high as `asked` is at t, since at none between can it be as high as `asked` is there.
pub(crate) fn met<A: Curve, G: Curve>(asked: &A, given: &G, from: u32, last: u32) -> Option<u32>
    requires { last ≤ 1000000 }
    ensures { Found (λ t. A.Curve.height asked.now t ≤ G.Curve.height given.now t) from last result }
{
    let mut t = from;
    while t <= last {
        let climb = Climb {
            curve: given,
            mark: asked.at(t),
            last,
        };
        let next = climb.reached(t)?;
        if next == t {
            return Some(t);
        }
        t = next;
    }
    None
}
