// The links of a net kept beside their nodes (document 02, Ten), from the arrays that the trace keeps by value: for each node the set of links by which one
// can go on from it, and of those by which one comes to it. A set is a word; its lowest digit is the link with the lowest place.
#![tactic(auto)]

ghost use Rattle.std.specs.Prelude.{◌≡◌, ◌<◌};
ghost use Rattle.chart.specs.Values.{most_links};
ghost use Rattle.route_links.specs.Arrays.{is_out, is_back, net};
ghost use Rattle.route_links.specs.ByNode.{table_size, ByNode};
ghost use Rattle.route_links.specs.Private.{put_in, lead};

use chart::{MOST_LINKS, MOST_NODES};

// The rows of the table: a word for each node with the links into it, one with the links out of it, a number for each link, the goal, and a word for each node
// with the nodes from which a link leads to it.
pub const OUT_ROW: usize = 16;

pub const SUM_ROW: usize = 32;

pub const GOAL: usize = 80;

pub const FROM_ROW: usize = 81;

pub const TABLE_SIZE: usize = 97;

// Whether a link is passed from its first end to its second.
fn is_out(way: u8) -> bool
    ensures { result ≡ is_out way }
{
    (way == 1) | (way == 2)
}

// Whether a link is passed from its second end to its first.
fn is_back(way: u8) -> bool
    ensures { result ≡ is_back way }
{
    (way == 1) | (way == 3)
}

// Puts link i into the set at place p.
fn put_in(t: &mut [u64; TABLE_SIZE], p: usize, i: usize)
    requires place { p < table_size }
    requires link { i < most_links }
    ensures { t.new ≡ put_in t.old p i }
{
    t[p] |= 1u64 << i;
}

// Keeps link i as one that leads from a to b, if it is passed so and both are nodes, and two.
fn lead(t: &mut [u64; TABLE_SIZE], i: usize, a: u8, b: u8, passed: bool)
    requires { i < most_links }
    ensures { t.new ≡ lead t.old i a b passed }
{
    if !passed {
        return;
    }
    if MOST_NODES <= a {
        return;
    }
    if MOST_NODES <= b {
        return;
    }
    if a == b {
        return;
    }
    let x = a as usize;
    let y = b as usize;
    put_in(t, y, i);
    put_in(t, OUT_ROW + x, i);
    put_in(t, FROM_ROW + y, x);
    t[SUM_ROW + i] = (x + y) as u64;
}

// The table of the links in the arrays; those past 48 are none.
pub fn links_by_node(ends: [[u8; 2]; 48], ways: [u8; 48], links: usize, to: u8) -> [u64; TABLE_SIZE]
    ensures { ByNode (net ends ways links to) result }
{
    let mut t = [0u64; TABLE_SIZE];
    for i in 0..links.min(MOST_LINKS as usize) {
        let [a, b] = ends[i];
        let way = ways[i];
        lead(&mut t, i, a, b, is_out(way));
        lead(&mut t, i, b, a, is_back(way));
    }
    t[GOAL] = to as u64;
    t
}
