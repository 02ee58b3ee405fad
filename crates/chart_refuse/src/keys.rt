// Keys of stations and of ends: one number each, to see at once whether one is among those before it.
ghost use Rattle.chart_refuse.specs.Private.{StationKeyed, EndKeyed, KeysOf};

use address::{Address, Station};
use chart::Nodes;

// The three bytes of a station as one number.
pub fn station_key(s: Station) -> u32
    ensures { StationKeyed s result }
{
    s.brigade as u32 * 65536 + s.node.0 as u32
}

// The four bytes of an end as one number.
pub fn end_key(e: Address) -> u32
    ensures { EndKeyed e result }
{
    e.brigade as u32 * 16777216 + e.node.0 as u32 * 256 + e.port.0 as u32
}

// The keys of all 16 places of nodes.
pub fn station_keys(nodes: Nodes) -> [u32; 16]
    ensures { KeysOf nodes result }
{
    let mut keys = [0u32; 16];
    for (i, node) in nodes.items.iter().enumerate() {
        keys[i] = station_key(node.station);
    }
    keys
}
