// The envelope in an image.
ghost use Rattle.std.specs.Prelude.{◌≡◌, ◌≤◌, min};
ghost use Rattle.lists.specs.Places.{row};
ghost use Rattle.address.specs.Address.{zero_address};
ghost use Rattle.envelope_image.specs.Image.{fields_in, destination_held};
ghost use Rattle.envelope.specs.Refusal.{most_destinations};

use crate::FIELDS_SIZE;
use address::{Address, Seq};
use address_bytes::ADDRESS_SIZE;
use envelope::{Fixed, MOST_DESTINATIONS};

// The fixed fields in an image.
pub fn fields_in(b: &[u8]) -> Fixed
    ensures { result ≡ fields_in b.now }
{
    Fixed {
        source: address_bytes::address_in(b, 0),
        count: buffer::byte_at(b, 4),
        length: 0,
        priority: buffer::byte_at(b, 7),
        version: buffer::byte_at(b, 8),
        ack: buffer::byte_at(b, 9) == 1,
        seq: Seq(buffer::word_at(b, 10)),
        kind: buffer::byte_at(b, 12),
    }
}

// The first n destinations in an image.
fn first_addresses(b: &[u8], n: usize) -> [Address; 63]
    requires { n ≤ most_destinations }
    ensures { result ≡ row most_destinations zero_address (destination_held b.now) n }
{
    let mut addresses = [Address::default(); 63];
    for i in 0..n {
        addresses[i] = address_bytes::address_in(b, FIELDS_SIZE + ADDRESS_SIZE * i);
    }
    addresses
}

// The destinations that count in an image, 63 at most.
pub fn addresses_in(b: &[u8]) -> [Address; 63]
    ensures { result ≡ row most_destinations zero_address (destination_held b.now) (min (fields_in b.now).count most_destinations) }
{
    let n = buffer::byte_at(b, 4).min(MOST_DESTINATIONS);
    first_addresses(b, n as usize)
}
