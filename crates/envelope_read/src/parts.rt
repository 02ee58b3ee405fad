// The parts of a frame (3.3, appendix A): its contents, and its destinations as values.
ghost use Rattle.std.specs.Prelude.{◌≡◌, ◌+◌};
ghost use Rattle.envelope_read.specs.Parts.{contents_of, contents_offset_of, destinations_of};

use crate::addresses::{no_addresses, read_addresses};
use crate::{Destinations, read_frame};
use address_bytes::PACKED_SIZE;
use envelope::{CONTENTS_OFFSET, DESTINATIONS_OFFSET};

// The contents of a frame, as that part of the frame itself; of a refused frame the empty part at its start.
pub fn contents_of(frame: &[u8]) -> &[u8]
    ensures result_value { result.now ≡ contents_of frame.now }
    ensures place { (result.ref_ptr.0 ≡ frame.entry.ref_ptr.0) × (result.ref_ptr.1 ≡ contents_offset_of frame.now + frame.entry.ref_ptr.1) }
{
    let Ok(e) = read_frame(frame) else {
        return &frame[..0];
    };
    let start = CONTENTS_OFFSET + PACKED_SIZE * (e.count as usize);
    let end = start + e.length as usize;
    &frame[start..end]
}

// The destinations of a frame; of a refused frame none.
pub fn destinations_of(frame: &[u8]) -> Destinations
    ensures { result ≡ destinations_of frame.now }
{
    let Ok(e) = read_frame(frame) else {
        return Destinations {
            count: 0,
            addresses: no_addresses(),
        };
    };
    Destinations {
        count: e.count,
        addresses: read_addresses(&frame[DESTINATIONS_OFFSET..], e.count as usize),
    }
}
