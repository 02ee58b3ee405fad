// A frame's fields where they stand (appendix A, <envelope>), whether it is whole (refusals 1 to 3), and the keys of its destinations.
ghost use Rattle.std.specs.Prelude.{◌≡◌, ◌≤◌};
ghost use Rattle.lists.specs.Places.{row};
ghost use Rattle.envelope.specs.Frame.{fields_of, destination_at};
ghost use Rattle.envelope.specs.Private.{key_at};
ghost use Rattle.envelope.specs.Place.{place_beside};
ghost use Rattle.envelope.specs.Refusal.{most_destinations, whole_refusal};
ghost use Rattle.refusal.specs.Numbers.{AnswersAt};

use address::Seq;
use address_bytes::PACKED_SIZE;
use envelope::{DESTINATIONS_OFFSET, Fixed, SMALLEST_FRAME};
use refusal::{Fault, Refusal};

// The fixed fields; a byte past the end counts as 0.
pub fn fields_of(frame: &[u8]) -> Fixed
    ensures { result ≡ fields_of frame.now }
{
    let source = address_bytes::packed_in(frame, 0);
    let w = buffer::word_at(frame, 3);
    let prot = DESTINATIONS_OFFSET + PACKED_SIZE * ((w % 64) as usize);
    let p = buffer::byte_at(frame, prot);
    let a = buffer::word_at(frame, prot + 1);
    let kind = buffer::byte_at(frame, prot + 3);
    Fixed {
        source,
        count: (w % 64) as u8,
        length: w / 64,
        priority: p / 16,
        version: p % 16,
        ack: a % 2 == 1,
        seq: Seq(a / 2),
        kind,
    }
}

// Refusals 1 to 3, and the place of each.
pub fn whole(frame: &[u8]) -> Result<(), Fault>
    ensures { AnswersAt result (whole_refusal frame.now) (place_beside (whole_refusal frame.now) frame.now) tt }
{
    let n = frame.len();
    let w = buffer::word_at(frame, 3) as usize;
    let size = SMALLEST_FRAME + PACKED_SIZE * (w % 64) + w / 64;
    if n < size {
        return Err(Refusal::FrameShort.at(n));
    }
    if size < n {
        return Err(Refusal::FrameLong.at(size));
    }
    let last = n - 1;
    if envelope::check(&frame[..last]) != frame[last] {
        return Err(Refusal::FrameCheck.at(last));
    }
    Ok(())
}

// The keys of the first n destinations of the part of a frame that begins with them.
pub fn keys_in(part: &[u8], n: usize) -> [u32; 63]
    requires { n ≤ most_destinations }
    ensures { result ≡ row most_destinations 0 (key_at (destination_at part.now)) n }
{
    let mut keys = [0u32; 63];
    for i in 0..n {
        keys[i] = address_bytes::address_key(address_bytes::packed_in(part, PACKED_SIZE * i));
    }
    keys
}
