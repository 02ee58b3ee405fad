// The envelope read (3.3, appendix A): the fixed fields of a frame or its refusal, its contents, and its destinations.
#![tactic(auto)]

ghost use Rattle.std.specs.Prelude.{◌≡◌, ◌≤◌, false};
ghost use Rattle.lists.specs.Refusals.{unless_refused};
ghost use Rattle.address.specs.Address.{address_of};
ghost use Rattle.refusal.specs.Numbers.{number, AnswersAt};
ghost use Rattle.envelope.specs.Frame.{fields_of};
ghost use Rattle.envelope.specs.Refusal.{frame_refusal, most_destinations};
ghost use Rattle.envelope.specs.Place.{destination_place, frame_place};
ghost use Rattle.envelope_read.specs.Read.{read_answer, read_refusal, read_place, read_fields, read_frame_of};
ghost use Rattle.envelope_read.specs.Private.{value_place};

use address::Address;
use address_bytes::PACKED_SIZE;
use envelope::{DESTINATIONS_OFFSET, Fixed};
use frame::{fields_of, keys_in, whole};
use refusal::{Fault, Refusal};

mod addresses;
mod frame;
mod parts;

pub use parts::{contents_of, destinations_of};

// The byte of <dest_count>.
const COUNT_PLACE: usize = 4;

// The destinations of an envelope. The unused places are zero.
#[derive(Clone, Copy)]
pub struct Destinations {
    pub count: u8,
    pub addresses: [Address; 63],
}

// The first byte of the destination at a place, or past so many of them.
fn destination_place(i: usize) -> usize
    requires { i ≤ most_destinations }
    ensures { result ≡ destination_place i }
{
    DESTINATIONS_OFFSET + PACKED_SIZE * i
}

// The place of 4, 7, 8 or 9 in a frame of so many destinations; the fault of 8 has the place of the destination.
fn value_place(fault: Fault, count: u8) -> usize
    requires counted { count ≤ most_destinations }
    requires placed { fault.place ≤ most_destinations }
    ensures { result ≡ value_place (number fault.refusal) count fault.place }
{
    match fault.refusal {
        Refusal::FrameCount => COUNT_PLACE,
        Refusal::FrameRepeated => destination_place(fault.place),
        _ => destination_place(count as usize),
    }
}

// The fixed fields of a frame; or what refuses it, and the place of the first byte of the first field at fault.
pub fn read_frame(frame: &[u8]) -> Result<Fixed, Fault>
    ensures value { AnswersAt result (frame_refusal frame.now) (frame_place frame.now) (fields_of frame.now) }
    ensures answer { read_answer result ≡ read_frame_of frame.now }
    ensures refusal { read_refusal (read_answer result) ≡ frame_refusal frame.now }
    ensures place { read_place (read_answer result) ≡ frame_place frame.now }
    ensures values { read_fields (read_answer result) ≡ unless_refused (frame_refusal frame.now) (fields_of frame.now) (record { source = address_of 0 0 0; count = 0; length = 0; priority = 0; version = 0; ack = false; seq = record { 0 = 0 }; kind = 0 }) }
{
    whole(frame)?;
    let e = fields_of(frame);
    let keys = keys_in(&frame[DESTINATIONS_OFFSET..], e.count as usize);
    match envelope::judged_by(e, e.length as usize, false, &keys) {
        Ok(()) => Ok(e),
        Err(fault) => Err(fault.refusal.at(value_place(fault, e.count))),
    }
}
