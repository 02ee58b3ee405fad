// Bytes of a slice, read and stored at any place: a place past the end reads as 0, and nothing is stored there.
#![tactic(auto)]

ghost use Rattle.std.specs.Prelude.{◌≡◌, ◌+◌, ◌≤◌, length, get_or, replicate};
ghost use Rattle.std.proofs.lemmas.List.Edits.{sets};
ghost use Rattle.buffer.specs.Bytes.{word_at};

// The byte at a place.
pub fn byte_at(s: &[u8], at: usize) -> u8
    ensures { result ≡ get_or s.now at 0 }
{
    s.get(at).copied().unwrap_or(0)
}

// The two-byte number that begins at a place, the high byte first.
pub fn word_at(s: &[u8], at: usize) -> u16
    ensures { result ≡ word_at s.now at }
{
    if at < s.len() {
        u16::from_be_bytes([s[at], byte_at(s, at + 1)])
    } else {
        0
    }
}

// Stores the bytes of src from a place on, where all of them fit. Byte by byte: of a slice copied whole the compiler makes a call of memmove,
// which C's linker would have to find.
fn store_all(out: &mut [u8], at: usize, src: &[u8])
    requires { at + length src.now ≤ length out.old }
    ensures { out.new ≡ sets out.old at src.now }
{
    for (i, b) in src.iter().enumerate() {
        out[at + i] = *b;
    }
}

// Stores the bytes of src from a place on; those past the end of out are left out.
pub fn put_all(out: &mut [u8], at: usize, src: &[u8])
    ensures { out.new ≡ sets out.old at src.now }
{
    if out.len() <= at {
        return;
    }
    let room = out.len() - at;
    if room < src.len() {
        store_all(out, at, &src[..room]);
        return;
    }
    store_all(out, at, src);
}

// Stores n zeros from a place on; those past the end of out are left out.
pub fn put_zeros(out: &mut [u8], at: usize, n: usize)
    ensures { out.new ≡ sets out.old at (replicate n 0) }
{
    if out.len() <= at {
        return;
    }
    let room = out.len() - at;
    if room < n {
        out[at..].fill(0);
        return;
    }
    out[at..at + n].fill(0);
}
