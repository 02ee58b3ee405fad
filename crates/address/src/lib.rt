// Addresses (3.2): three kinds of number that are never mixed, the station and the address made of them. Its bytes are written and read by
// `address_bytes`.
#![tactic(auto)]

ghost use Rattle.std.specs.Prelude.{◌≡◌};
ghost use Rattle.address.specs.Address.{station_of, station_in_range, in_range, same_station, same_address};

pub const LARGEST_BRIGADE: u8 = 255;

pub const LARGEST_NODE: u16 = 1023;

pub const LARGEST_PORT: u8 = 63;

pub const LARGEST_SEQ: u16 = 32767;

#[derive(Clone, Copy, Debug, Default, PartialEq, Eq)]
pub struct Node(pub u16);

#[derive(Clone, Copy, Debug, Default, PartialEq, Eq)]
pub struct Port(pub u8);

#[derive(Clone, Copy, Debug, Default, PartialEq, Eq)]
pub struct Seq(pub u16);

// A node of the network, with its brigade or agency.
#[derive(Clone, Copy, Debug, Default, PartialEq, Eq)]
pub struct Station {
    pub brigade: u8,
    pub node: Node,
}

// A port of a station. Port 0 is the router. In this order the three fields leave no byte between them unused, so that rows of addresses are filled and copied at once.
#[derive(Clone, Copy, Debug, Default, PartialEq, Eq)]
pub struct Address {
    pub brigade: u8,
    pub port: Port,
    pub node: Node,
}

// The station that an address stands at.
pub fn station_of(a: Address) -> Station
    ensures { result ≡ station_of a }
{
    Station {
        brigade: a.brigade,
        node: a.node,
    }
}

// Whether the brigade and the node are in range. (Every byte is a brigade; the test costs nothing.)
pub fn station_in_range(s: Station) -> bool
    ensures { result ≡ station_in_range s }
{
    (s.brigade <= LARGEST_BRIGADE) & (s.node.0 <= LARGEST_NODE)
}

// Whether the node and the port are in range.
pub fn in_range(a: Address) -> bool
    ensures { result ≡ in_range a }
{
    station_in_range(station_of(a)) & (a.port.0 <= LARGEST_PORT)
}

// Whether two stations are one.
pub fn same_station(s: Station, t: Station) -> bool
    ensures { result ≡ same_station s t }
{
    s == t
}

// Whether two addresses are one.
pub fn same_address(a: Address, b: Address) -> bool
    ensures { result ≡ same_address a b }
{
    a == b
}
