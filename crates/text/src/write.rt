// Writing: triples as a text of 1 to 17 lines, and as a table's text.
ghost use Rattle.std.specs.Prelude.{◌≡◌, ◌*◌, ◌≤◌, ◌++◌, length, drop, Ok, OnOk};
ghost use Rattle.std.specs.List.{AllByRecursion};
ghost use Rattle.text.specs.Texts.{Fitting, text_of};
ghost use Rattle.text.specs.Reading.{PrintableRefusal, text_read, table_read};
ghost use Rattle.text.specs.Places.{UnfitRefusal};
ghost use Rattle.text.specs.Writing.{JustWhere, Leaves, Writable, WritableTable, lines_checked, lines_written, number_checked, table_checked, table_written, triple_checked};

use crate::line::write_line;
use crate::order::check_order;
use crate::sizes::{LARGEST, LINE, LONGEST, MOST_LINES};
use crate::triple::Triple;
use fault::{Fault, Rule};

// Refuses a number that is too large for a field.
fn check_number(n: u32, line: u32, field: u32) -> Result<(), Fault>
    ensures { result ≡ number_checked n line field }
{
    if n <= LARGEST {
        Ok(())
    } else {
        Err(Rule::WellFormed.broken_at(line, field))
    }
}

// Refuses a triple with such a number.
fn check_triple(triple: Triple, line: u32) -> Result<(), Fault>
    ensures { result ≡ triple_checked triple line }
{
    check_number(triple.first, line, 1)?;
    check_number(triple.second, line, 2)?;
    check_number(triple.third, line, 3)
}

// Refuses what cannot be written into a list of `room` bytes.
fn check_lines(triples: &[Triple], room: usize) -> Result<(), Fault>
    ensures { result ≡ lines_checked triples.now room }
{
    if room < LONGEST {
        return Err(Rule::RoomToWrite.broken_at(0, room as u32));
    }
    if triples.is_empty() || triples.len() > MOST_LINES {
        return Err(Rule::WholeLines.broken_at(0, 0));
    }
    for (i, triple) in triples.iter().enumerate() {
        check_triple(*triple, i as u32 + 1)?;
    }
    Ok(())
}

// The same of a table's triples.
fn check_table(triples: &[Triple], room: usize) -> Result<(), Fault>
    ensures { result ≡ table_checked triples.now room }
{
    check_lines(triples, room)?;
    check_order(triples)
}

// Puts the text of the triples over the first bytes of `out`, and answers its length.
fn put(triples: &[Triple], out: &mut [u8]) -> usize
    requires fits { AllByRecursion Fitting triples.now }
    requires room { 25 * length triples.now ≤ length out.old }
    ensures length { result ≡ 25 * length triples.now }
    ensures bytes { out.new ≡ text_of triples.now ++ drop result out.old }
{
    // By place: what is written through `out.chunks_exact_mut(LINE)` is not known afterwards.
    for (i, triple) in triples.iter().enumerate() {
        let start = LINE * i;
        write_line(*triple, &mut out[start..start + LINE]);
    }
    LINE * triples.len()
}

// Writes the text of the triples, whatever the numbers mean, and answers its length.
pub fn write_lines(triples: &[Triple], out: &mut [u8]) -> Result<usize, Fault>
    ensures value { result ≡ lines_written triples.now (length out.old) }
    ensures accepts { JustWhere (Writable triples.now (length out.old)) result }
    ensures bytes { Leaves result triples.now out.old out.new }
    ensures unfit { UnfitRefusal triples.now result }
    ensures back { OnOk result (text_read (text_of triples.now) ≡ Ok triples.now) }
    ensures small { PrintableRefusal result }
{
    check_lines(triples, out.len())?;
    Ok(put(triples, out))
}

// The same of a table's triples, whose first number has to be an order.
pub fn write_table(triples: &[Triple], out: &mut [u8]) -> Result<usize, Fault>
    ensures value { result ≡ table_written triples.now (length out.old) }
    ensures accepts { JustWhere (WritableTable triples.now (length out.old)) result }
    ensures bytes { Leaves result triples.now out.old out.new }
    ensures unfit { UnfitRefusal triples.now result }
    ensures back { OnOk result (table_read (text_of triples.now) ≡ Ok triples.now) }
    ensures small { PrintableRefusal result }
{
    check_table(triples, out.len())?;
    Ok(put(triples, out))
}
