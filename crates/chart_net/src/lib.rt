// What the trace keeps of a chart by value (document 01, "Routes and their order"; document 02, Five): the two ends of each link as node places, the way each
// link is passed, and the places that the question names. Nodes are found by brigade and node number.
#![tactic(auto)]

ghost use Rattle.std.specs.Prelude.{◌≡◌, ◌≤◌};
ghost use Rattle.chart_refuse.specs.Private.{KeysOf};
ghost use Rattle.chart_net.specs.Net.{station_place};
ghost use Rattle.chart_net.specs.Private.{station_place_for, end_places, passage_of, ends_for, passages_for, asked_of};
ghost use Rattle.chart.specs.Values.{most_nodes};

use address::{Station, station_of};
use chart::{BACK_ONLY, Chart, Link, Links, MOST_LINKS, MOST_NODES, Nodes};

// The node places that the question names: where it begins, and where it ends.
#[derive(Clone, Copy)]
pub struct Asked {
    pub from: u8,
    pub to: u8,
}

// The place of the node at a station among at most 16 nodes with these keys, or their count where there is none.
fn find_node(nodes: Nodes, keys: &[u32; 16], s: Station) -> u8
    requires { (nodes.count ≤ most_nodes) × KeysOf nodes keys.now }
    ensures { result ≡ station_place nodes s }
{
    let k = chart_refuse::station_key(s);
    for i in 0..nodes.count {
        if keys[i as usize] == k {
            return i;
        }
    }
    nodes.count
}

// The same of any nodes; 16 where they are too many.
fn place_by(nodes: Nodes, keys: &[u32; 16], s: Station) -> u8
    requires { KeysOf nodes keys.now }
    ensures { result ≡ station_place_for nodes s }
{
    if MOST_NODES < nodes.count {
        return MOST_NODES;
    }
    find_node(nodes, keys, s)
}

// The place of the node at a station: the nodes' count where there is none, 16 where they are too many.
pub fn place_of(nodes: Nodes, s: Station) -> u8
    ensures { result ≡ station_place_for nodes s }
{
    let keys = chart_refuse::station_keys(nodes);
    place_by(nodes, &keys, s)
}

// The two ends of a link, as node places.
fn link_ends(nodes: Nodes, keys: &[u32; 16], l: Link) -> [u8; 2]
    requires { KeysOf nodes keys.now }
    ensures { result ≡ end_places nodes l }
{
    let p = place_by(nodes, keys, station_of(l.a));
    let q = place_by(nodes, keys, station_of(l.b));
    [p, q]
}

// The two ends of each link, in 48 places, the unused ones zero; all of them where the links are too many.
fn ends_for(nodes: Nodes, keys: &[u32; 16], links: Links) -> [[u8; 2]; 48]
    requires { KeysOf nodes keys.now }
    ensures { result ≡ ends_for nodes links }
{
    let mut ends = [[0u8; 2]; 48];
    if MOST_LINKS < links.count {
        return ends;
    }
    for (i, l) in links.items[..links.count as usize].iter().enumerate() {
        ends[i] = link_ends(nodes, keys, *l);
    }
    ends
}

// The two ends of each link of a chart, likewise. The keys of its nodes are made once for all links.
pub fn ends_of(c: Chart) -> [[u8; 2]; 48]
    ensures { result ≡ ends_for c.nodes c.links }
{
    let keys = chart_refuse::station_keys(c.nodes);
    ends_for(c.nodes, &keys, c.links)
}

// The way that a link is passed: 0 not at all, 1 both ways, 2 out, 3 back.
fn passage_of(l: Link) -> u8
    ensures { result ≡ passage_of l }
{
    let d = l.direction;
    if l.on & (d <= BACK_ONLY) {
        return d + 1;
    }
    0
}

// The way that each link is passed, in 48 places, the unused ones zero; all of them where the links are too many.
pub fn passages_for(links: Links) -> [u8; 48]
    ensures { result ≡ passages_for links }
{
    let mut ways = [0u8; 48];
    if MOST_LINKS < links.count {
        return ways;
    }
    for (i, l) in links.items[..links.count as usize].iter().enumerate() {
        ways[i] = passage_of(*l);
    }
    ways
}

// The places that the question of a chart names; 16 where its nodes are too many.
pub fn asked_of(c: Chart) -> Asked
    ensures { result ≡ asked_of c }
{
    let nodes = c.nodes;
    let keys = chart_refuse::station_keys(nodes);
    let from = place_by(nodes, &keys, c.from);
    let to = place_by(nodes, &keys, c.to);
    Asked { from, to }
}
