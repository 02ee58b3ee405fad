// An address in 24 bits: its three bytes on the wire (<comms_address>, appendix A), and the same bits as one number.
ghost use Rattle.std.specs.Prelude.{◌≡◌, ◌+◌, ◌*◌, ◌/◌};
ghost use Rattle.address_bytes.specs.Packed.{packed_bytes, packed_in, address_key};

use address::{Address, Node, Port};

// The three bytes of an address; of a node or a port out of range, the low bits.
pub fn packed_bytes(a: Address) -> [u8; 3]
    ensures { result ≡ packed_bytes a }
{
    let n = a.node.0;
    [
        a.brigade,
        (n / 4 % 256) as u8,
        (n % 4 * 64) as u8 + a.port.0 % 64,
    ]
}

// The address whose three bytes begin at a place of s; a byte past the end counts as 0.
pub fn packed_in(s: &[u8], at: usize) -> Address
    ensures { result ≡ packed_in s.now at }
{
    if s.len() <= at {
        return Address::default();
    }
    let high = buffer::byte_at(s, at + 1);
    let low = buffer::byte_at(s, at + 2);
    Address {
        brigade: s[at],
        node: Node(u16::from(high) * 4 + u16::from(low / 64)),
        port: Port(low % 64),
    }
}

// The 24 bits of an address as one number: two addresses in range are one exactly if their keys are.
pub fn address_key(a: Address) -> u32
    ensures { result ≡ address_key a }
{
    u32::from(a.brigade) * 65536 + u32::from(a.node.0) * 64 + u32::from(a.port.0)
}
