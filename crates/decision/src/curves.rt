// What rows ask and what a supply promises in t ticks, as curves.
ghost use Rattle.std.specs.Prelude.{◌≡◌, ℕ, ◌+◌, ◌*◌, ◌≤◌, length, sum_by};
ghost use Rattle.std.proofs.Common.{arith};
ghost use Rattle.std.proofs.lemmas.List.Sums.{sum_by-le-sum_by};
ghost use Rattle.table.specs.Rows.{releases_in};
ghost use Rattle.table.proofs.Counts.{released_mono};
ghost use Rattle.supply.proofs.Bounds.{bound_rises};
ghost use Rattle.decision.specs.Least.{Rises};

use crate::count::{Count, Releases};
use supply::Supply;
use table::Row;

// A number of each time, which does not fall as time goes on.
pub(crate) trait Curve {
    // Its height at a time.
    ghost height: { Self → ℕ → ℕ };

    // That t is at most a million is asked in clauses, here and below, and not by a type of times: the search adds and
    // halves them, and would take each out of the type and put it back.
    fn at(&self, t: u32) -> u32
        requires { t ≤ 1000000 }
        ensures { result ≡ height self.now t };

    ghost rises: { (c : Self) → Rises (height c) };
}

// S(t) or H(t): the work of the jobs that are counted, over all rows.
#[derive(Drop)]
pub(crate) struct Work<'a, C> {
    pub rows: &'a [Row],
    pub counted: C,
    ghost few: { length rows.now ≤ 16 },
}

impl<'a, C: Count> Curve for Work<'a, C> {
    ghost height = { λ w t. sum_by (λ r. C.jobs t r * r.cost) w.rows.now };

    ghost rises = { λ w a b h. sum_by-le-sum_by (λ r. C.jobs a r * r.cost) (λ r. C.jobs b r * r.cost) w.rows.now (C.rises a b h) };

    // A loop over the rows, as the rules of the project ask.
    fn at(&self, t: u32) -> u32 {
        let mut sum: u32 = 0;
        for row in self.rows {
            sum += self.counted.jobs(row, t) * row.cost;
        }
        sum
    }
}

// W(i, t): a row's own cost, and the work that the rows before it can release.
#[derive(Drop)]
pub(crate) struct Workload<'a> {
    pub row: &'a Row,
    pub before: Work<'a, Releases>,
}

impl<'a> Curve for Workload<'a> {
    ghost height = { λ w t. w.row.now.cost + sum_by (λ r. releases_in t r * r.cost) w.before.rows.now };

    ghost rises = { λ w a b h. omega (arith, sum_by-le-sum_by (λ r. releases_in a r * r.cost) (λ r. releases_in b r * r.cost) w.before.rows.now (released_mono a b h)) };

    fn at(&self, t: u32) -> u32 {
        self.row.cost + self.before.at(t)
    }
}

// B(t) + MORE.
#[derive(Drop)]
pub(crate) struct Raised<'a, S, const MORE: u16> {
    pub supply: &'a S,
}

impl<'a, S: Supply, const MORE: u16> Curve for Raised<'a, S, MORE> {
    ghost height = { λ p t. S.bound p.supply.now t + MORE };

    ghost rises = { λ p a b h. omega (arith, bound_rises (S.bound p.supply.now) (S.superadditive p.supply.now) a b h) };

    fn at(&self, t: u32) -> u32 {
        match self.supply.bound(t) {
            Some(bound) => bound + u32::from(MORE),
            None => unreachable(),
        }
    }
}

// What the supply promises.
pub(crate) type Promise<'a, S> = Raised<'a, S, 0>;

// The least that it does not promise.
pub(crate) type Beyond<'a, S> = Raised<'a, S, 1>;
