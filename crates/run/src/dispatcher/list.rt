// The list of pending jobs.
ghost use Rattle.std.specs.Prelude.{◌≡◌, ◌≤◌, ◌++◌, length, drop};
ghost use Rattle.dispatch.specs.Jobs.{jobs_of};
ghost use Rattle.dispatch.specs.Laws.{OneEach};
ghost use Rattle.dispatch.specs.Runs.{pending_answer};
ghost use Rattle.run.specs.Holding.{jobs_state};
ghost use Rattle.run.specs.Listing.{Listed};

use super::Dispatcher;
use dispatch::{Job, RowState};
use fault::{Fault, Rule};

// How many jobs are pending.
fn count(rows: &[RowState]) -> usize
    ensures { result ≡ length (jobs_of rows.now) }
{
    // By a loop, of which several rows are compiled to one step, as they are not of `filter` and `count`.
    let mut pending: usize = 0;
    for row in rows {
        if row.active.is_some() {
            pending += 1;
        }
    }
    pending
}

// Writes the pending jobs to the front of the list, the lowest row first.
fn write(rows: &[RowState], list: &mut [Job])
    requires { length (jobs_of rows.now) ≤ length list.old }
    ensures { list.new ≡ jobs_of rows.now ++ drop (length (jobs_of rows.now)) list.old }
{
    // By place: what is written through a zip with the list's places is not known afterwards, and a walk over them that
    // draws the jobs beside it is two walks in one loop.
    let mut n: usize = 0;
    for row in rows {
        if let Some(pending) = row.active {
            list[n] = pending.job;
            n += 1;
        }
    }
}

impl Dispatcher {
    // How many jobs are pending, where there is room for so many records; else refused with 55.
    pub(crate) fn room_for(&self, room: usize) -> Result<usize, Fault>
        ensures { result ≡ pending_answer room (jobs_state self.now) }
    {
        let needed = count(self.rows.items());
        if room < needed {
            return Err(Rule::RoomForJobs.broken_at(needed as u32, room as u32));
        }
        Ok(needed)
    }

    pub(crate) fn pending(&self, list: &mut [Job]) -> Result<usize, Fault>
        ensures answer { result ≡ pending_answer (length list.old) (jobs_state self.now) }
        ensures records { Listed (jobs_of (jobs_state self.now).rows) list.old list.new result }
        ensures one_each { OneEach (jobs_of (jobs_state self.now).rows) }
    {
        let needed = self.room_for(list.len())?;
        write(self.rows.items(), list);
        Ok(needed)
    }
}
