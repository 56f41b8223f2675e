// The calls of a script, carried out one after the other. A call is two numbers, what is asked and an argument.
use crate::answer::numbers;
use crate::words::{Written, next};
use dispatch::{Call, Job, Reply};
use order::Order;
use run::Run;
use std::slice::Iter;
use supply::{PeriodicServer, Supply};

// The places of a list of pending jobs, and what each holds before the call.
const PLACES: usize = 20;

const UNTOUCHED: u32 = 0xa5a5_a5a5;

// What a script asks: a call of a run, or so many ticks with one offer, at least one.
#[derive(Clone, Copy)]
enum Asked {
    Once(Call),
    Ticks(bool, u32),
}

// Of what is asked and an argument, as C numbers them.
impl From<(u32, u32)> for Asked {
    fn from((kind, argument): (u32, u32)) -> Asked {
        match kind {
            1 => Asked::Once(Call::Release(argument)),
            2 => Asked::Once(Call::End(argument)),
            3 => Asked::Once(Call::Tick(argument != 0)),
            4 => Asked::Once(Call::Look),
            5 => Asked::Once(Call::Pending(argument as usize)),
            6 => Asked::Ticks(false, argument),
            _ => Asked::Ticks(true, argument),
        }
    }
}

// The reply to the last of so many ticks.
fn tick_often<O: Order>(run: &mut Run<PeriodicServer, O>, offer: bool, ticks: u32) -> Reply {
    let mut last = run.reply(Call::Tick(offer));
    for _ in 1..ticks {
        last = run.reply(Call::Tick(offer));
    }
    last
}

// Lists the pending jobs with so much room, and writes the reply and then every place of the list, also those beyond
// the room.
fn pending<O: Order>(run: &Run<PeriodicServer, O>, room: usize, written: &mut Written<'_>) {
    let mut list = [Job {
        row: UNTOUCHED,
        release: UNTOUCHED,
        deadline: UNTOUCHED,
    }; PLACES];
    let room = room.min(PLACES);
    let reply = run
        .pending(&mut list[..room])
        .map_or_else(Reply::Refused, Reply::Pending);
    written.put_all(numbers(reply));
    for job in list {
        written.put(job.row);
        written.put(job.release);
        written.put(job.deadline);
    }
}

// Carries out so many calls of a script and writes the reply to each.
pub(crate) fn play<O: Order>(
    run: &mut Run<PeriodicServer, O>,
    calls: u32,
    script: &mut Iter<'_, u32>,
    written: &mut Written<'_>,
) {
    for _ in 0..calls {
        let kind = next(script);
        let argument = next(script);
        match Asked::from((kind, argument)) {
            Asked::Once(Call::Pending(room)) => pending(run, room, written),
            Asked::Once(call) => written.put_all(numbers(run.reply(call))),
            Asked::Ticks(offer, ticks) => written.put_all(numbers(tick_often(run, offer, ticks))),
        }
    }
}
