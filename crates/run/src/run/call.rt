// The calls of a run.
ghost use Rattle.std.specs.Prelude.{◌≡◌, ℕ, ◌+◌, false, length, is_ok, IfOk, Ok, OnOk};
ghost use Rattle.table.specs.Tables.{rows_of};
ghost use Rattle.decision.specs.Decisions.{Window};
ghost use Rattle.order.specs.Orders.{goes_by};
ghost use Rattle.dispatch.specs.Jobs.{jobs_of};
ghost use Rattle.dispatch.specs.Laws.{MakesJob, RemovesJob, FollowsOrder, JobsLive, NoWork, OneEach};
ghost use Rattle.dispatch.specs.Promises.{KeepsTime, QuietWithin};
ghost use Rattle.dispatch.specs.Runs.{fresh, release_answer, after_release, end_answer, after_end, tick_answer, after_tick, look_answer, pending_answer};
ghost use Rattle.run.specs.Listing.{Listed};
ghost use Rattle.run.specs.View.{state_of};

use super::Run;
use crate::dispatcher::Dispatcher;
use dispatch::{Job, Looked, Progress, Ticked};
use fault::Fault;
use order::Order;
use supply::Supply;
use table::Table;

// The supply's step and the order's relation are written out in the clauses: a definition in specs/ has no bounds to take
// them from.
impl<S: Supply, O: Order> Run<S, O> {
    // A run of the table at clock 0, with no job. What holds of every list of calls of it: if the order's test accepts the
    // table over the supply, no tick misses a job and none ends older than its row's limit; and if the busy window closes
    // at l, then among any l ticks in a row one ends with nothing pending.
    pub fn new(table: &Table, supply: S, order: O) -> Run<S, O>
        ensures state { state_of result ≡ fresh (rows_of table.now) supply }
        ensures order { result.order ≡ order }
        ensures accepted_table_misses_no_job { (a : O.Accepted) → O.tested order (rows_of table.now) (S.bound supply) (Ok a) → KeepsTime S.step (goes_by O.keyed O.before order) (rows_of table.now) supply (O.limit order (rows_of table.now) a) }
        ensures busy_window_ends { (l : ℕ) → Window (rows_of table.now) (S.bound supply) l → QuietWithin S.step (goes_by O.keyed O.before order) l (fresh (rows_of table.now) supply) }
    {
        order.accepted_table_misses_no_job(&supply);
        Run {
            supply,
            order,
            dispatcher: Dispatcher::new(table),
        }
    }

    // Makes a job of the row, counted from 1, at the present clock; refused with 51 where there is no such row, and with
    // 52 less than its period after its last accepted release.
    pub fn release(&mut self, row: u32) -> Result<(), Fault>
        ensures answer { result ≡ release_answer row (state_of self.old) }
        ensures state { state_of self.new ≡ after_release row (state_of self.old) }
        ensures order { self.new.order ≡ self.old.order }
        ensures refused { is_ok result ≡ false → self.new ≡ self.old }
        ensures job { OnOk result (MakesJob row (state_of self.old).clock (state_of self.old).rows (state_of self.new).rows) }
    {
        self.dispatcher.release(row)
    }

    // Removes the row's pending job and answers its age; refused with 51, and with 53 where there is none.
    pub fn end(&mut self, row: u32) -> Result<u32, Fault>
        ensures answer { result ≡ end_answer row (state_of self.old) }
        ensures state { state_of self.new ≡ after_end row (state_of self.old) }
        ensures order { self.new.order ≡ self.old.order }
        ensures refused { is_ok result ≡ false → self.new ≡ self.old }
        ensures job { OnOk result (RemovesJob row (state_of self.old).rows (state_of self.new).rows) }
    {
        self.dispatcher.end(row)
    }

    // Passes one tick with the host's offer: the supply is ticked; if it grants, the first job runs; the clock rises; and
    // the jobs that are due then are struck off as missed. Refused with 54 at the last clock.
    pub fn tick(&mut self, offer: bool) -> Result<Ticked, Fault>
        ensures answer { result ≡ tick_answer S.step (goes_by O.keyed O.before self.old.order) offer (state_of self.old) }
        ensures state { state_of self.new ≡ after_tick S.step (goes_by O.keyed O.before self.old.order) offer (state_of self.old) }
        ensures order { self.new.order ≡ self.old.order }
        ensures refused { is_ok result ≡ false → self.new ≡ self.old }
        ensures first { IfOk result (λ t. FollowsOrder (goes_by O.keyed O.before self.old.order) (jobs_of (state_of self.old).rows) t.progress) }
        ensures lives { IfOk result (λ t. JobsLive ((state_of self.old).clock + 1) t.progress (state_of self.old).rows (state_of self.new).rows) }
        ensures withheld { IfOk result (λ t. t.progress ≡ Progress.Withheld → NoWork (state_of self.old).rows (state_of self.new).rows) }
    {
        self.dispatcher.may_tick()?;
        let grant = self.supply.tick(offer);
        let chosen = self.dispatcher.chosen(grant, &self.order);
        Ok(self.dispatcher.pass(grant, chosen))
    }

    // The clock, and the ticks that were granted, run and idle.
    pub fn look(&self) -> Looked
        ensures answer { result ≡ look_answer (state_of self.now) }
        ensures sum { result.granted ≡ result.ran + result.idle }
    {
        self.dispatcher.look()
    }

    // Writes a record for each pending job into the list and answers how many; refused with 55 where the list is too
    // short.
    pub fn pending(&self, list: &mut [Job]) -> Result<usize, Fault>
        ensures answer { result ≡ pending_answer (length list.old) (state_of self.now) }
        ensures records { Listed (jobs_of (state_of self.now).rows) list.old list.new result }
        ensures one_each { OneEach (jobs_of (state_of self.now).rows) }
    {
        self.dispatcher.pending(list)
    }
}
