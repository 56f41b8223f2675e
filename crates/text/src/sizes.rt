// The sizes of a text and of its parts, in bytes, and how much it can hold.

// A field: spaces, and then the digits of a number.
pub(crate) const FIELD: usize = 8;

// A line: three fields and a line feed.
pub const LINE: usize = 3 * FIELD + 1;

// The most lines of a text; the fewest is one.
pub const MOST_LINES: usize = 17;

// The longest text: so many lines.
pub const LONGEST: usize = MOST_LINES * LINE;

// The largest number that a field has room for.
pub(crate) const LARGEST: u32 = 99_999_999;
