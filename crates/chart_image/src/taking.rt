// The chart in an image.
ghost use Rattle.std.specs.Prelude.{◌≡◌, ◌≤◌};
ghost use Rattle.lists.specs.Places.{row};
ghost use Rattle.chart.specs.Values.{longest_label, most_links, most_nodes, no_node, no_link};
ghost use Rattle.chart_read.specs.Fields.{bytes_from};
ghost use Rattle.chart_image.specs.Image.{chart_image_size, node_held, link_held, chart_in};

use crate::{LINK_SIZE, LINKS_START, NODE_SIZE, NODES_START};
use chart::{Chart, ChartNode, Link, Links, MOST_LINKS, MOST_NODES, Nodes};

// The 24 bytes from a place on.
fn label_in(b: &[u8], at: usize) -> [u8; 24]
    requires { at ≤ chart_image_size }
    ensures { result ≡ row longest_label 0 (bytes_from b.now at) longest_label }
{
    let mut label = [0u8; 24];
    for (i, x) in label.iter_mut().enumerate() {
        *x = buffer::byte_at(b, at + i);
    }
    label
}

// The node at place i of an image.
fn node_held(b: &[u8], i: usize) -> ChartNode
    requires { i ≤ most_nodes }
    ensures { result ≡ node_held b.now i }
{
    let at = NODES_START + NODE_SIZE * i;
    ChartNode {
        station: address_bytes::station_in(b, at),
        length: buffer::byte_at(b, at + 3),
        label: label_in(b, at + 4),
    }
}

// The first n nodes of an image, and no node at the other places.
fn nodes_held(b: &[u8], n: usize) -> [ChartNode; 16]
    requires { n ≤ most_nodes }
    ensures { result ≡ row most_nodes no_node (node_held b.now) n }
{
    let mut items = [chart::no_node(); 16];
    for i in 0..n {
        items[i] = node_held(b, i);
    }
    items
}

// The link at place i of an image; where its on byte is above 1, no link.
fn link_held(b: &[u8], i: usize) -> Link
    requires { i ≤ most_links }
    ensures { result ≡ link_held b.now i }
{
    let at = LINKS_START + LINK_SIZE * i;
    let on = buffer::byte_at(b, at + 8);
    if 1 < on {
        return chart::no_link();
    }
    Link {
        a: address_bytes::address_in(b, at),
        b: address_bytes::address_in(b, at + 4),
        on: on == 1,
        direction: buffer::byte_at(b, at + 9),
    }
}

// The first n links of an image, and no link at the other places.
fn links_held(b: &[u8], n: usize) -> [Link; 48]
    requires { n ≤ most_links }
    ensures { result ≡ row most_links no_link (link_held b.now) n }
{
    let mut items = [chart::no_link(); 48];
    for i in 0..n {
        items[i] = link_held(b, i);
    }
    items
}

// The chart in an image.
pub fn chart_in(b: &[u8]) -> Chart
    ensures { result ≡ chart_in b.now }
{
    let n = buffer::byte_at(b, 0);
    let m = buffer::byte_at(b, 1);
    Chart {
        nodes: Nodes {
            count: n,
            items: nodes_held(b, n.min(MOST_NODES) as usize),
        },
        links: Links {
            count: m,
            form: buffer::byte_at(b, 2),
            items: links_held(b, m.min(MOST_LINKS) as usize),
        },
        from: address_bytes::station_in(b, 3),
        to: address_bytes::station_in(b, 6),
    }
}
