// Reading: a text of 1 to 17 lines, and a table's text.
ghost use Rattle.std.specs.Prelude.{◌≡◌};
ghost use Rattle.fault.specs.Steps.{map_ok};
ghost use Rattle.text.specs.Held.{triples_of};
ghost use Rattle.text.specs.Texts.{Spells, SpellsTable};
ghost use Rattle.text.specs.Places.{MisspeltRefusal};
ghost use Rattle.text.specs.Reading.{PrintableRefusal, Tells, text_read, table_read};

use crate::line::read_line;
use crate::lines::Lines;
use crate::order::check_order;
use crate::sizes::{LINE, LONGEST};
use fault::{Fault, Rule};

// The triples that the lines of `text` write, whatever the numbers mean, or the first fault in it.
pub fn read_lines(text: &[u8]) -> Result<Lines, Fault>
    ensures value { map_ok triples_of result ≡ text_read text.now }
    ensures spells { Tells Spells text.now (map_ok triples_of result) }
    ensures misspelt { MisspeltRefusal text.now result }
    ensures small { PrintableRefusal result }
{
    if text.is_empty() || text.len() % LINE != 0 || text.len() > LONGEST {
        return Err(Rule::WholeLines.broken_at(0, 0));
    }
    let mut lines = Lines::new();
    for (i, line) in text.chunks_exact(LINE).enumerate() {
        let triple = read_line(line, i as u32 + 1)?;
        lines.push(triple)?;
    }
    Ok(lines)
}

// The same of a table's text, whose first number has to be an order.
pub fn read_table(text: &[u8]) -> Result<Lines, Fault>
    ensures value { map_ok triples_of result ≡ table_read text.now }
    ensures spells { Tells SpellsTable text.now (map_ok triples_of result) }
    ensures misspelt { MisspeltRefusal text.now result }
    ensures small { PrintableRefusal result }
{
    let table = read_lines(text)?;
    check_order(table.triples())?;
    Ok(table)
}
