// The report: what is answered on a table text, in lines of the same form.
ghost use Rattle.std.specs.Prelude.{◌≡◌, [], ◌∷◌, length, Ok};
ghost use Rattle.fault.specs.Steps.{map_ok};
ghost use Rattle.text.specs.Held.{triples_of};
ghost use Rattle.table.specs.Tables.{rows_of};
ghost use Rattle.decision.specs.Responses.{responses_of};
ghost use Rattle.report.specs.Answers.{fault_line, response_lines, Judged, Reported};

use crate::task::{Task, read_task};
use crate::verdict::Verdict;
use decision::Responses;
use fault::Fault;
use table::Table;
use text::{Lines, Triple, write_lines};

// A line for each row: its number, its response and its deadline.
fn response_lines(table: &Table, responses: &Responses) -> Result<Lines, Fault>
    requires { length (responses_of responses.now) ≡ length (rows_of table.now) }
    ensures { map_ok triples_of result ≡ Ok (response_lines (rows_of table.now) (responses_of responses.now)) }
{
    let rows = table.rows();
    let mut lines = Lines::one(Triple {
        first: 0,
        second: rows.len() as u32,
        third: 0,
    });
    for (i, (row, response)) in rows.iter().zip(responses.times()).enumerate() {
        lines.push(Triple {
            first: i as u32 + 1,
            second: *response,
            third: row.deadline,
        })?;
    }
    Ok(lines)
}

// The line of a fault; no `From`, since faults and lines are both of crates below.
fn fault_lines(fault: Fault) -> Lines
    ensures { triples_of result ≡ fault_line fault ∷ [] }
{
    Lines::one(Triple {
        first: fault.number(),
        second: fault.place.0,
        third: fault.place.1,
    })
}

// The lines of an accepted table, or the fault of whatever refused it, passed up unchanged.
fn judged(bytes: &[u8]) -> Result<Lines, Fault>
    ensures { Judged bytes.now (map_ok triples_of result) }
{
    let task = read_task(bytes)?;
    match task.decide()? {
        Verdict::Responses(responses) => response_lines(&task.table, &responses),
        Verdict::Window(window) => Ok(Lines::one(Triple {
            first: 0,
            second: task.table.rows().len() as u32,
            third: window,
        })),
    }
}

// Writes the report on a table text over the front of `out`, and answers how many bytes it has. Refused only where
// `out` has under 425 bytes, with 15, and then `out` stays as it was; the bytes beyond the report stay in any case.
pub fn report(bytes: &[u8], out: &mut [u8]) -> Result<usize, Fault>
    ensures { Reported bytes.now out.old out.new result }
{
    let lines = judged(bytes).unwrap_or_else(fault_lines);
    write_lines(lines.triples(), out)
}
