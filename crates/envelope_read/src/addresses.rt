// The destinations of a frame as values in 63 places, the unused ones zero.
ghost use Rattle.std.specs.Prelude.{◌≡◌, ◌≤◌, replicate};
ghost use Rattle.lists.specs.Places.{row};
ghost use Rattle.address.specs.Address.{zero_address};
ghost use Rattle.envelope.specs.Frame.{destination_at};
ghost use Rattle.envelope.specs.Refusal.{most_destinations};

use address::Address;
use address_bytes::PACKED_SIZE;

pub fn no_addresses() -> [Address; 63]
    ensures { result ≡ replicate most_destinations zero_address }
{
    [Address::default(); 63]
}

// The first n destinations of the part of a frame that begins with them.
pub fn read_addresses(part: &[u8], n: usize) -> [Address; 63]
    requires { n ≤ most_destinations }
    ensures { result ≡ row most_destinations zero_address (destination_at part.now) n }
{
    let mut addresses = no_addresses();
    for i in 0..n {
        addresses[i] = address_bytes::packed_in(part, PACKED_SIZE * i);
    }
    addresses
}
