// Stations and addresses in whole bytes, as charts and images have them: a station is 3 bytes, an address 4. A byte past the end counts as 0.
ghost use Rattle.std.specs.Prelude.{◌≡◌};
ghost use Rattle.address_bytes.specs.Wide.{station_bytes, address_bytes, station_in, address_in};

use address::{Address, Node, Port, Station};

// The four bytes of an address.
pub fn address_bytes(a: Address) -> [u8; 4]
    ensures { result ≡ address_bytes a }
{
    let [high, low] = a.node.0.to_be_bytes();
    [a.brigade, high, low, a.port.0]
}

// The address whose four bytes begin at a place.
pub fn address_in(b: &[u8], at: usize) -> Address
    ensures { result ≡ address_in b.now at }
{
    if b.len() <= at {
        return Address::default();
    }
    Address {
        brigade: b[at],
        node: Node(buffer::word_at(b, at + 1)),
        port: Port(buffer::byte_at(b, at + 3)),
    }
}

// The three bytes of a station.
pub fn station_bytes(s: Station) -> [u8; 3]
    ensures { result ≡ station_bytes s }
{
    let [high, low] = s.node.0.to_be_bytes();
    [s.brigade, high, low]
}

// The station whose three bytes begin at a place.
pub fn station_in(b: &[u8], at: usize) -> Station
    ensures { result ≡ station_in b.now at }
{
    if b.len() <= at {
        return Station::default();
    }
    let node = buffer::word_at(b, at + 1);
    Station {
        brigade: b[at],
        node: Node(node),
    }
}
