// The first links of routes with the fewest links (document 02, Eight), over what the trace keeps by value. From the node asked for backwards, one link
// further in each round, until a link leads from where one stands into what was reached.
#![tactic(auto)]

ghost use Rattle.std.specs.Prelude.{◌≡◌, ◌<◌};
ghost use Rattle.chart.specs.Values.{most_nodes};
ghost use Rattle.route_links.specs.Private.{Walkable};
ghost use Rattle.route_fewest.specs.Fewest.{first_link};
ghost use Rattle.route_fewest.specs.Private.{toward, link_place, SpreadOf, first_links_over};

use chart::{MOST_LINKS, MOST_NODES};
use route_links::{FROM_ROW, OUT_ROW, TABLE_SIZE, links_by_node};

// The place that stands for no link.
pub const NO_LINK: u8 = MOST_LINKS;

// How some nodes are come to: the links that lead into them, and the nodes from which these lead.
#[derive(Clone, Copy)]
pub struct Spread {
    pub links: u64,
    pub nodes: u16,
}

// How these nodes are come to.
fn spread_of(t: &[u64; TABLE_SIZE], nodes: u16) -> Spread
    ensures { SpreadOf t.now nodes result }
{
    let mut links = 0u64;
    let mut from = 0u16;
    let mut rest = nodes;
    while rest != 0 {
        let n = rest.trailing_zeros() as usize;
        links |= t[n];
        from |= (t[FROM_ROW + n] % 65536) as u16;
        rest ^= 1u16 << n;
    }
    Spread { links, nodes: from }
}

// The first link of the first route with the fewest links from a node to another; 48 where there is none, and for the node itself.
fn first_link(t: &[u64; TABLE_SIZE], from: usize, to: usize) -> u8
    requires walkable { Walkable t.now }
    requires from_node { from < most_nodes }
    requires to_node { to < most_nodes }
    ensures { result ≡ link_place (first_link (toward t.now to) from) }
{
    if from == to {
        return NO_LINK;
    }
    let out = t[OUT_ROW + from];
    let mut front = 1u16 << to;
    let mut seen = front;
    let mut left = MOST_NODES;
    while (front != 0) & (0 < left) {
        let s = spread_of(t, front);
        let nearer = out & s.links;
        if nearer != 0 {
            return nearer.trailing_zeros() as u8;
        }
        front = s.nodes ^ (s.nodes & seen);
        seen |= front;
        left -= 1;
    }
    NO_LINK
}

// For each of the first so many node places the first link of the first route to it with the fewest links, from a node place; 48 where there is none, and past
// them.
pub fn first_links(
    ends: [[u8; 2]; 48],
    ways: [u8; 48],
    links: usize,
    nodes: u8,
    from: u8,
) -> [u8; 16]
    ensures { result ≡ first_links_over ends ways links nodes from }
{
    let mut first = [NO_LINK; 16];
    if MOST_NODES <= from {
        return first;
    }
    let t = links_by_node(ends, ways, links, 0);
    for to in 0..nodes.min(MOST_NODES) as usize {
        first[to] = first_link(&t, from as usize, to);
    }
    first
}
