// The image of a message, 5 bytes: node place 1, arrival port 1, nodes met 2, ending 1.
#![tactic(auto)]

ghost use Rattle.std.specs.Prelude.{◌≡◌};
ghost use Rattle.std.proofs.lemmas.List.Edits.{sets};
ghost use Rattle.class_image.specs.Message.{message_in, message_bytes};

use address::Port;
use class::Message;

pub const MESSAGE_SIZE: usize = 5;

// The message in an image.
pub fn message_in(b: &[u8]) -> Message
    ensures { result ≡ message_in b.now }
{
    Message {
        at: buffer::byte_at(b, 0),
        arrival: Port(buffer::byte_at(b, 1)),
        met: buffer::word_at(b, 2),
        ending: buffer::byte_at(b, 4),
    }
}

// The message put into one; bytes past its end are left out.
pub fn put_message(image: &mut [u8], m: Message)
    ensures { image.new ≡ sets image.old 0 (message_bytes m) }
{
    let [high, low] = m.met.to_be_bytes();
    buffer::put_all(image, 0, &[m.at, m.arrival.0, high, low, m.ending]);
}
