// One field: a number's decimal digits, without leading zeros, after as many spaces as fill eight bytes.
ghost use Rattle.std.specs.Prelude.{◌≡◌, ◌<◌, ◌≤◌, true, false, length, take, replicate, MatchOption, ◌≢◌, slice_index};
ghost use Rattle.std.specs.Str.{all_ascii_digits};
ghost use Rattle.text.specs.Fields.{Fits, Reads, candidate, field_of, field_read};

// How many spaces `text` begins with.
fn blanks(text: &[u8]) -> usize
    ensures within { result ≤ length text.now }
    ensures blank { take result text.now ≡ replicate result 32 }
    ensures stops { result < length text.now → slice_index text.now result ≢ 32 }
{
    text.iter().position(|b| *b != b' ').unwrap_or(text.len())
}

// The number that `digits` write in base ten, or nothing where one of them is no digit.
fn number(digits: &[u8]) -> Option<u32>
    requires { length digits.now ≤ 8 }
    ensures { MatchOption result (all_ascii_digits digits.now ≡ false) (λ n. (all_ascii_digits digits.now ≡ true) × (n ≡ candidate digits.now)) }
{
    let mut n: u32 = 0;
    for b in digits {
        if !b.is_ascii_digit() {
            return None;
        }
        n = 10 * n + u32::from(*b - b'0');
    }
    Some(n)
}

// The number whose text the eight bytes are, if they are one's.
pub(crate) fn read_field(text: &[u8]) -> Option<u32>
    requires { length text.now ≡ 8 }
    ensures value { result ≡ field_read text.now }
    ensures reads { Reads text.now result }
{
    let digits = &text[blanks(text)..];
    if digits.is_empty() {
        return None;
    }
    if digits[0] == b'0' && digits.len() > 1 {
        return None;
    }
    number(digits)
}

// Writes the text of `n` over the eight bytes.
pub(crate) fn write_field(n: u32, out: &mut [u8])
    requires { (length out.old ≡ 8) × (Fits n) }
    ensures { out.new ≡ field_of n }
{
    out.fill(b' ');
    let mut rest = n;
    // By place: what is written through `out.iter_mut().rev()` is not known afterwards.
    for at in (0..out.len()).rev() {
        out[at] = b'0' + (rest % 10) as u8;
        rest /= 10;
        if rest == 0 {
            break;
        }
    }
}
