// Where a message comes in that leaves a node by a port.
ghost use Rattle.std.specs.Prelude.{◌≡◌, ◌<◌, ◌≤◌};
ghost use Rattle.lists.specs.Places.{first_below};
ghost use Rattle.chart.specs.Values.{most_links};
ghost use Rattle.chart_refuse.specs.Promises.{Accepted};
ghost use Rattle.class.specs.Class.{away_end, out_by};
ghost use Rattle.class.specs.Private.{leaves_first, leaves_second, leaves_at, coming_of};

use address::{Address, Port, Station};
use chart::{BACK_ONLY, Chart, Link, Links, OUT_ONLY};

// Where it comes in: at a node place, by a port.
#[derive(Clone, Copy)]
pub struct Coming {
    pub node: u8,
    pub port: Port,
}

// Whether a link is passed from its first end at a station, which has the port.
fn leaves_first(l: Link, s: Station, p: Port) -> bool
    ensures { result ≡ leaves_first l s p }
{
    l.on & (l.direction != BACK_ONLY)
        & (l.a.port.0 == p.0)
        & address::same_station(address::station_of(l.a), s)
}

// Whether it is passed from its second end there.
fn leaves_second(l: Link, s: Station, p: Port) -> bool
    ensures { result ≡ leaves_second l s p }
{
    l.on & (l.direction != OUT_ONLY)
        & (l.b.port.0 == p.0)
        & address::same_station(address::station_of(l.b), s)
}

// The first link that leaves a station by the port, or the number of the links.
fn exit_link(links: Links, s: Station, p: Port) -> usize
    requires { links.count ≤ most_links }
    ensures { result ≡ first_below (leaves_at links s p) links.count }
{
    let n = links.count as usize;
    for (i, l) in links.items[..n].iter().enumerate() {
        if leaves_first(*l, s, p) | leaves_second(*l, s, p) {
            return i;
        }
    }
    n
}

// The end at which one comes in who goes over a link from a station.
fn away_end(l: Link, s: Station) -> Address
    ensures { result ≡ away_end l s }
{
    if address::same_station(address::station_of(l.a), s) {
        return l.b;
    }
    l.a
}

// Where a message comes in that leaves the node at a place by the port, if a link leaves there.
pub fn out_by(c: Chart, at: usize, p: Port) -> Option<Coming>
    requires accepted { Accepted c }
    requires there { at < c.nodes.count }
    ensures { coming_of result ≡ out_by c at p }
{
    let s = c.nodes.items[at].station;
    let i = exit_link(c.links, s, p);
    if c.links.count as usize <= i {
        return None;
    }
    let e = away_end(c.links.items[i], s);
    Some(Coming {
        node: chart_net::place_of(c.nodes, address::station_of(e)),
        port: e.port,
    })
}
