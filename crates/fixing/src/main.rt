// Tells in words what is decided on a fixing's table text, which it reads from standard input.
#![tactic(auto)]

use decision::Responses;
use fault::Fault;
use report::{Task, Verdict, read_task};
use std::io;
use std::io::Read;
use table::Row;
use words::{Reason, Step};

mod names;
mod words;

// One byte more than the longest text tells that the input is too long. `verdict` reads as this program does: a library
// does not read, and a crate for these lines would be longer.
const ENOUGH: u64 = text::LONGEST as u64 + 1;

fn main(rt: HostRuntime) -> io::Result<()> {
    let mut bytes = Vec::new(rt.alloc());
    rt.stdin().take(ENOUGH).read_to_end(&mut bytes)?;
    match read_task(&bytes) {
        Ok(task) => tell_task(rt, &task),
        Err(fault) => tell_refusal(rt, fault),
    }
}

fn tell_task(rt: HostRuntime, task: &Task) -> io::Result<()> {
    let rows = task.table.rows();
    let count = rows.len();
    let budget = task.server.budget();
    let period = task.server.period();
    println!(rt; "Rows read: {count}.")?;
    println!(rt; "Order: {}.", task.policy)?;
    println!(rt; "Reservation: {budget} of every {period} ticks.")?;
    println!(rt; "")?;
    match task.decide() {
        Ok(verdict) => tell_verdict(rt, rows, verdict),
        Err(fault) => {
            tell_rows(rt, rows)?;
            tell_refusal(rt, fault)
        }
    }
}

fn tell_verdict(rt: HostRuntime, rows: &[Row], verdict: Verdict) -> io::Result<()> {
    match verdict {
        Verdict::Responses(responses) => tell_responses(rt, rows, &responses),
        Verdict::Window(window) => tell_window(rt, rows, window),
    }
}

// Every row, with its response beside its deadline.
fn tell_responses(rt: HostRuntime, rows: &[Row], responses: &Responses) -> io::Result<()> {
    println!(rt; "row  step            cost  period  response  deadline  (ticks)")?;
    for (number, (row, response)) in (1..).zip(rows.iter().zip(responses.times())) {
        let step = Step { number, row };
        println!(rt; "{step}  {response:>8}  {:>8}", row.deadline)?;
    }
    println!(rt; "")?;
    println!(rt; "Accepted: each step's response is within its deadline.")
}

// Every row, and how long all of them can keep the supply busy.
fn tell_window(rt: HostRuntime, rows: &[Row], window: u32) -> io::Result<()> {
    tell_rows(rt, rows)?;
    println!(rt; "Busy window, in ticks: {window}.")?;
    println!(rt; "Accepted: in every stretch of time the supply promises all that can be due.")
}

fn tell_rows(rt: HostRuntime, rows: &[Row]) -> io::Result<()> {
    println!(rt; "row  step            cost  period  deadline  (ticks)")?;
    for (number, row) in (1..).zip(rows) {
        let step = Step { number, row };
        println!(rt; "{step}  {:>8}", row.deadline)?;
    }
    println!(rt; "")
}

// Why it was refused, and where.
fn tell_refusal(rt: HostRuntime, fault: Fault) -> io::Result<()> {
    let number = fault.number();
    let layer = fault.layer().number();
    println!(rt;
        "Refused with fault {number} in layer {layer}: {}",
        Reason(fault)
    )
}
