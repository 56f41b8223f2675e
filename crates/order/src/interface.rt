// What every order promises, and all that is known of one above this crate.
ghost use Rattle.std.specs.Prelude.{◌≡◌, ℕ, Bool, true, not, List, Ok, Result, ◌≢◌};
ghost use Rattle.fault.specs.declared.fault.Fault.{Fault};
ghost use Rattle.table.specs.declared.row.Row.{Row};
ghost use Rattle.table.specs.Tables.{rows_of};
ghost use Rattle.dispatch.specs.declared.job.Job.{Job};
ghost use Rattle.dispatch.specs.Promises.{KeepsTime};
ghost use Rattle.order.specs.Orders.{goes_by};

use dispatch::Job;
use fault::Fault;
use supply::Supply;
use table::Table;

pub trait Order {
    // What jobs are compared by.
    type Key;

    // What the order's test tells of a table that it accepts.
    type Accepted;

    ghost keyed: { Self → Job → Self.Key };

    // Whether a job with the first key goes before one with the second.
    ghost before: { Self.Key → Self.Key → Bool };

    // What the test answers, for the rows of a table and a bound.
    ghost tested: { Self → List Row → (ℕ → ℕ) → Result Self.Accepted Fault → Type 0 };

    // How old a job of each row, counted from 1, can be as it ends, in an accepted table.
    ghost limit: { Self → List Row → Self.Accepted → ℕ → ℕ };

    fn key(&self, job: Job) -> Self::Key
        ensures { result ≡ keyed self.now job };

    fn goes_first(&self, a: Self::Key, b: Self::Key) -> bool
        ensures { result ≡ before a b };

    // The order's own test: whether it accepts the table over the supply.
    fn test<S: Supply>(&self, table: &Table, supply: &S) -> Result<Self::Accepted, Fault>
        ensures { tested self.now (rows_of table.now) (S.Supply.bound supply.now) result };

    // The law of the test, for every supply, which is why it is a method: in a run of an accepted table, whatever is
    // called and offered, no job is missed and none ends older than its row's limit.
    fn accepted_table_misses_no_job<S: Supply>(&self, supply: &S)
        ensures { (rs : List Row) (a : Self.Accepted) → tested self.now rs (S.Supply.bound supply.now) (Ok a) → KeepsTime S.Supply.step (goes_by keyed before self.now) rs supply.now (limit self.now rs a) };

    // Of two jobs of different rows exactly one goes first.
    ghost one_first: { (o : Self) (a b : Job) → (a.row ≢ b.row) → before (keyed o a) (keyed o b) ≡ not (before (keyed o b) (keyed o a)) };

    ghost transitive: { (o : Self) (a b c : Job) → before (keyed o a) (keyed o b) ≡ true → before (keyed o b) (keyed o c) ≡ true → before (keyed o a) (keyed o c) ≡ true };
}
