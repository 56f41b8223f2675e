// One line: three fields and a line feed.
ghost use Rattle.std.specs.Prelude.{◌≡◌, ◌≤◌, length};
ghost use Rattle.text.specs.Texts.{Fitting, line_of};
ghost use Rattle.text.specs.Reading.{field_at, line_read};

use crate::field::{read_field, write_field};
use crate::sizes::{FIELD, LINE};
use crate::triple::Triple;
use fault::{Fault, Rule};

// Where a line has its line feed.
const FEED: usize = LINE - 1;

// The field that is counted `field`, of the line that is counted `line`. How long the bytes are stands in clauses, here and
// below: a part of a text is a slice, out of which an array would have to be copied.
fn field_at(text: &[u8], line: u32, field: u32) -> Result<u32, Fault>
    requires { (length text.now ≡ 25) × ((1 ≤ field) × (field ≤ 3)) }
    ensures { result ≡ field_at text.now line field }
{
    let start = FIELD * (field as usize - 1);
    read_field(&text[start..start + FIELD]).ok_or(Rule::WellFormed.broken_at(line, field))
}

// The triple that the line counted `line` writes, or the first fault in it.
pub(crate) fn read_line(text: &[u8], line: u32) -> Result<Triple, Fault>
    requires { length text.now ≡ 25 }
    ensures { result ≡ line_read text.now line }
{
    if text[FEED] != b'\n' {
        return Err(Rule::LineFeed.broken_at(line, 0));
    }
    let first = field_at(text, line, 1)?;
    let second = field_at(text, line, 2)?;
    let third = field_at(text, line, 3)?;
    Ok(Triple {
        first,
        second,
        third,
    })
}

// Writes the line of the triple over the 25 bytes. That its numbers fit is a clause and no type: a triple of any numbers is
// what a caller hands over, and what is checked.
pub(crate) fn write_line(triple: Triple, out: &mut [u8])
    requires { (length out.old ≡ 25) × (Fitting triple) }
    ensures { out.new ≡ line_of triple }
{
    write_field(triple.first, &mut out[0..8]);
    write_field(triple.second, &mut out[8..16]);
    write_field(triple.third, &mut out[16..24]);
    out[FEED] = b'\n';
}
