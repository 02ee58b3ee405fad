// Text in a lent buffer: a byte past the end is not stored, and the place goes on counting. So writing into an empty buffer measures a text,
// and no writer asks anything of its caller. A place that would be past the largest usize stays there.
#![tactic(auto)]

ghost use Rattle.std.specs.Prelude.{[], ◌∷◌};
ghost use Rattle.text.specs.Private.{Laid};
ghost use Rattle.text.specs.Decimal.{digits, decimal};

// The digits of the largest usize.
const MOST_DIGITS: usize = 20;

// One byte at a place.
pub fn put_byte(out: &mut [u8], at: usize, b: u8) -> usize
    ensures { Laid out.old at (b ∷ []) out.new result }
{
    if out.len() <= at {
        return at.saturating_add(1);
    }
    out[at] = b;
    at + 1
}

// All bytes of s from a place on.
pub fn put_bytes(out: &mut [u8], at: usize, s: &[u8]) -> usize
    ensures { Laid out.old at s.now out.new result }
{
    buffer::put_all(out, at, s);
    at.saturating_add(s.len())
}

// The last k digits of n at most, with no zeros in front.
fn put_digits(out: &mut [u8], at: usize, n: usize, k: usize) -> usize
    ensures { Laid out.old at (digits k n) out.new result }
{
    if k == 0 {
        return at;
    }
    if n < 10 {
        return put_byte(out, at, b'0' + n as u8);
    }
    let next = put_digits(out, at, n / 10, k - 1);
    put_byte(out, next, b'0' + (n % 10) as u8)
}

// A number in decimal.
pub fn put_number(out: &mut [u8], at: usize, n: usize) -> usize
    ensures { Laid out.old at (decimal n) out.new result }
{
    put_digits(out, at, n, MOST_DIGITS)
}
