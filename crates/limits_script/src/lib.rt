// The lines that ask of document 01's limits: where a line ends, its numbers, and these as bytes and as so many bytes of a slice; and each line printed
// with what a caller answers. No contract can say what is printed.
#![tactic(auto)]

ghost use Rattle.std.specs.Prelude.{◌≡◌, ◌+◌, ◌-◌, ◌≤◌, ◌%◌, min, length, take, Ok, IfOk};
ghost use Rattle.limits_script.specs.Private.{line_end, longer_of, numbers_of, bytes_of, EachLine};

use std::io::Result;

#[cfg(test)]
mod tests;

// Where the line that begins at a place ends: at its line feed, or with the text.
pub fn line_end(text: &[u8], at: usize) -> usize
    ensures value { result ≡ line_end text.now at }
    ensures within { (at ≤ result) × (result ≤ at + (length text.now - at)) }
{
    for i in at..text.len() {
        if text[i] == b'\n' {
            return i;
        }
    }
    at.max(text.len())
}

// The number with one digit more.
fn longer(n: u16, digit: u8) -> u16
    ensures { result ≡ longer_of n digit }
{
    n.wrapping_mul(10).wrapping_add((digit % 16) as u16)
}

// The numbers of a line after its letter, as far as there are only digits and blanks; the others are 0.
pub fn numbers(line: &[u8]) -> [u16; 64]
    ensures { result ≡ numbers_of line.now }
{
    let mut v = [0u16; 64];
    let mut k: usize = 0;
    for i in 2..line.len() {
        let c = line[i];
        if c == b' ' {
            k = (k + 1) % 64;
        } else {
            if (c < b'0') | (b'9' < c) {
                return v;
            }
            v[k] = longer(v[k], c);
        }
    }
    v
}

// A number as a byte.
pub fn byte(n: u16) -> u8
    ensures { result ≡ n % 256 }
{
    (n % 256) as u8
}

// The numbers after the first, as bytes.
pub fn bytes(v: &[u16; 64]) -> [u8; 63]
    ensures { result ≡ bytes_of v.now }
{
    let mut all = [0u8; 63];
    for i in 0..63 {
        all[i] = byte(v[i + 1]);
    }
    all
}

// So many bytes of a slice, or all of them where there are fewer.
pub fn taken(n: u16, s: &[u8]) -> usize
    ensures within { result ≤ length s.now }
    ensures prefix_len { result ≡ length (take result s.now) }
    ensures value { result ≡ min n (length s.now) }
{
    s.len().min(n as usize)
}

// What comes back, printed after the line that asked: the number, and two values beside it.
pub fn answered(rt: &impl Print, number: u8, first: u64, second: u64) -> Result<()> {
    print!(rt; ": {number} {first} {second}")
}

// Each line of a text in turn: printed, and answered by its letter and its numbers. Where it gives Ok, `answer` gave Ok for each line.
pub fn answer_all<F: Fn(u8, &[u16; 64]) -> Result<()>>(
    rt: &impl Print,
    text: &[u8],
    answer: F,
) -> Result<()>
    requires { F.IsAlwaysCallable answer }
    ensures answered { IfOk result (λ u. EachLine (λ letter v. (r : _) × (r.now ≡ v) × F.post answer letter r (Ok tt)) text.now) }
{
    let mut at = 0;
    while at < text.len() {
        let end = line_end(text, at);
        let line = &text[at..end];
        rt.write_all(line)?;
        answer(line.first().copied().unwrap_or(0), &numbers(line))?;
        println!(rt)?;
        at = end + 1;
    }
    Ok(())
}
