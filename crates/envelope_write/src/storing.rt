// The bytes of a frame, stored field by field in the order of <envelope> (appendix A).
ghost use Rattle.std.specs.Prelude.{◌≡◌, ◌+◌, ◌*◌, ◌≤◌, length};
ghost use Rattle.std.proofs.lemmas.List.Edits.{sets};
ghost use Rattle.lists.specs.Places.{element_at, joined};
ghost use Rattle.address.specs.Address.{largest_seq, zero_address};
ghost use Rattle.address_bytes.specs.Packed.{packed_bytes};
ghost use Rattle.envelope_write.specs.Refusal.{size_for};
ghost use Rattle.envelope_write.specs.Private.{Ready};
ghost use Rattle.envelope_write.specs.Write.{frame_head, frame_mid, frame_body, frame_bytes};
ghost use Rattle.envelope.specs.Refusal.{longest_contents, most_destinations};

use address::Address;
use address_bytes::PACKED_SIZE;
use envelope::{CONTENTS_OFFSET, DESTINATIONS_OFFSET, Fixed};

// The first n addresses, from a place of out on.
fn put_addresses(out: &mut [u8], at: usize, addresses: [Address; 63], n: usize)
    requires { (n ≤ most_destinations) × (at ≤ 5) }
    ensures { out.new ≡ sets out.old at (joined packed_bytes (element_at zero_address addresses) n) }
{
    for i in 0..n {
        let b = address_bytes::packed_bytes(addresses[i]);
        buffer::put_all(out, at + PACKED_SIZE * i, &b);
    }
}

fn frame_head(e: Fixed, n: usize) -> [u8; 5]
    requires { (e.count ≤ most_destinations) × (n ≤ longest_contents) }
    ensures { result ≡ frame_head e n }
{
    let [brigade, middle, last] = address_bytes::packed_bytes(e.source);
    let [high, low] = (n as u16 * 64 + e.count as u16).to_be_bytes();
    [brigade, middle, last, high, low]
}

fn frame_mid(e: Fixed) -> [u8; 4]
    requires { (e.priority ≤ 9) × (e.version ≤ 2) × (e.seq.0 ≤ largest_seq) }
    ensures { result ≡ frame_mid e }
{
    let [high, low] = (e.seq.0 * 2 + e.ack as u16).to_be_bytes();
    [e.priority * 16 + e.version, high, low, e.kind]
}

// All bytes before the check character.
fn put_body(e: Fixed, addresses: [Address; 63], contents: &[u8], out: &mut [u8])
    requires { Ready e (length contents.now) (length out.old) }
    ensures { out.new ≡ sets out.old 0 (frame_body e (element_at zero_address addresses) contents.now) }
{
    let count = e.count as usize;
    let prot = DESTINATIONS_OFFSET + PACKED_SIZE * count;
    let head = frame_head(e, contents.len());
    buffer::put_all(out, 0, &head);
    put_addresses(out, DESTINATIONS_OFFSET, addresses, count);
    let mid = frame_mid(e);
    buffer::put_all(out, prot, &mid);
    buffer::put_all(out, prot + 4, contents);
}

// The whole frame, and its size.
pub fn put_frame(e: Fixed, addresses: [Address; 63], contents: &[u8], out: &mut [u8]) -> usize
    requires { Ready e (length contents.now) (length out.old) }
    ensures { (result ≡ size_for e (length contents.now)) × (out.new ≡ sets out.old 0 (frame_bytes e (element_at zero_address addresses) contents.now)) }
{
    put_body(e, addresses, contents, out);
    let n = CONTENTS_OFFSET + PACKED_SIZE * (e.count as usize) + contents.len();
    let x = envelope::check(&out[..n]);
    out[n] = x;
    n + 1
}
