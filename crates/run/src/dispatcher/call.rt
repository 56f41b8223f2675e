// Making a dispatcher; releases, ends and looks.
ghost use Rattle.std.specs.Prelude.{◌≡◌, ◌+◌, ◌≤◌, false, is_ok, OnOk};
ghost use Rattle.table.specs.Tables.{rows_of};
ghost use Rattle.dispatch.specs.Jobs.{released};
ghost use Rattle.dispatch.specs.Laws.{MakesJob, RemovesJob};
ghost use Rattle.dispatch.specs.Runs.{fresh, place_of, release_answer, after_release, end_answer, after_end, look_answer};
ghost use Rattle.run.specs.Holding.{jobs_state};

use super::Dispatcher;
use crate::counters::Counters;
use crate::rows::never_released;
use dispatch::{Active, Job, Looked, RowState};
use fault::{Fault, Rule};
use table::Table;

// The place of a row, counted from 1, among so many; refused with 51.
fn place(row: u32, count: usize) -> Result<usize, Fault>
    requires { count ≤ 16 }
    ensures { result ≡ place_of row count }
{
    if row < 1 || row as usize > count {
        return Err(Rule::RowInTable.broken_at(row, count as u32));
    }
    Ok(row as usize - 1)
}

// A row that is released at this clock. The last clock is the dispatcher's invariant; the three functions that have only
// the number ask for as much of it as they need.
fn released(row: u32, clock: u32, state: RowState) -> RowState
    requires { clock ≤ 4000000000 }
    ensures { result ≡ released row clock state }
{
    let job = Job {
        row,
        release: clock,
        deadline: clock + state.row.deadline,
    };
    RowState {
        active: Some(Active {
            job,
            cost: state.row.cost,
            ran: 0,
        }),
        next: clock + state.row.period,
        ..state
    }
}

impl Dispatcher {
    pub(crate) fn new(table: &Table) -> Dispatcher
        ensures { jobs_state result ≡ fresh (rows_of table.now) tt }
    {
        Dispatcher {
            rows: never_released(table),
            clock: 0,
            counters: Counters::new(),
        }
    }

    pub(crate) fn release(&mut self, row: u32) -> Result<(), Fault>
        ensures answer { result ≡ release_answer row (jobs_state self.old) }
        ensures state { jobs_state self.new ≡ after_release row (jobs_state self.old) }
        ensures refused { is_ok result ≡ false → self.new ≡ self.old }
        ensures job { OnOk result (MakesJob row self.old.clock (jobs_state self.old).rows (jobs_state self.new).rows) }
    {
        let rows = self.rows.items();
        let place = place(row, rows.len())?;
        let state = rows[place];
        if self.clock < state.next {
            return Err(Rule::PeriodPassed.broken_at(row, state.next - self.clock));
        }
        let released = released(row, self.clock, state);
        self.rows.change(|rows| rows[place] = released);
        Ok(())
    }

    pub(crate) fn end(&mut self, row: u32) -> Result<u32, Fault>
        ensures answer { result ≡ end_answer row (jobs_state self.old) }
        ensures state { jobs_state self.new ≡ after_end row (jobs_state self.old) }
        ensures refused { is_ok result ≡ false → self.new ≡ self.old }
        ensures job { OnOk result (RemovesJob row (jobs_state self.old).rows (jobs_state self.new).rows) }
    {
        let rows = self.rows.items();
        let place = place(row, rows.len())?;
        let state = rows[place];
        let Some(active) = state.active else {
            return Err(Rule::JobPending.broken_at(row, 0));
        };
        let age = self.clock - active.job.release;
        let cleared = RowState {
            active: None,
            ..state
        };
        self.rows.change(|rows| rows[place] = cleared);
        Ok(age)
    }

    pub(crate) fn look(&self) -> Looked
        ensures answer { result ≡ look_answer (jobs_state self.now) }
        ensures sum { result.granted ≡ result.ran + result.idle }
    {
        Looked {
            clock: self.clock,
            granted: self.counters.granted,
            ran: self.counters.ran,
            idle: self.counters.idle,
        }
    }
}
