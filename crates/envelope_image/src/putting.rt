// An envelope put into an image.
ghost use Rattle.std.specs.Prelude.{◌≡◌, ◌≤◌};
ghost use Rattle.std.proofs.lemmas.List.Edits.{sets};
ghost use Rattle.lists.specs.Places.{joined};
ghost use Rattle.address_bytes.specs.Wide.{address_bytes};
ghost use Rattle.envelope.specs.Frame.{destination_at};
ghost use Rattle.envelope_image.specs.Image.{field_bytes, envelope_bytes};
ghost use Rattle.envelope.specs.Refusal.{most_destinations};

use crate::FIELDS_SIZE;
use address_bytes::{ADDRESS_SIZE, PACKED_SIZE};
use envelope::{CONTENTS_OFFSET, Fixed, MOST_DESTINATIONS};

// The first 15 bytes of an image: the fixed fields, and where the contents begin.
fn field_bytes(e: Fixed) -> [u8; 15]
    ensures { result ≡ field_bytes e }
{
    let [brigade, node_high, node_low, port] = address_bytes::address_bytes(e.source);
    let [length_high, length_low] = e.length.to_be_bytes();
    let [seq_high, seq_low] = e.seq.0.to_be_bytes();
    let at = CONTENTS_OFFSET + PACKED_SIZE * (e.count as usize);
    let [at_high, at_low] = (at as u16).to_be_bytes();
    [
        brigade,
        node_high,
        node_low,
        port,
        e.count,
        length_high,
        length_low,
        e.priority,
        e.version,
        e.ack as u8,
        seq_high,
        seq_low,
        e.kind,
        at_high,
        at_low,
    ]
}

// The first n destinations of the part of a frame that begins with them, from byte 15 of an image on.
fn put_destinations(image: &mut [u8], part: &[u8], n: usize)
    requires { n ≤ most_destinations }
    ensures { image.new ≡ sets image.old 15 (joined address_bytes (destination_at part.now) n) }
{
    for i in 0..n {
        let b = address_bytes::address_bytes(address_bytes::packed_in(part, PACKED_SIZE * i));
        buffer::put_all(image, FIELDS_SIZE + ADDRESS_SIZE * i, &b);
    }
}

// The envelope with these fields and the destinations that a part of a frame begins with; bytes past the end of an image are left out.
pub fn put_envelope(image: &mut [u8], e: Fixed, part: &[u8])
    ensures { image.new ≡ sets image.old 0 (envelope_bytes e (destination_at part.now)) }
{
    let b = field_bytes(e);
    buffer::put_all(image, 0, &b);
    if MOST_DESTINATIONS < e.count {
        put_destinations(image, part, 63);
        return;
    }
    let n = e.count as usize;
    put_destinations(image, part, n);
    buffer::put_zeros(
        image,
        FIELDS_SIZE + ADDRESS_SIZE * n,
        ADDRESS_SIZE * (63 - n),
    );
}
