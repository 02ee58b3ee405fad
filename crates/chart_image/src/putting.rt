// A chart put into an image.
ghost use Rattle.std.specs.Prelude.{◌≡◌, ◌≤◌};
ghost use Rattle.std.proofs.lemmas.List.Edits.{sets};
ghost use Rattle.lists.specs.Places.{joined, up_to};
ghost use Rattle.chart.specs.Values.{most_links, most_nodes, directed, no_node, no_link, node_at, link_at};
ghost use Rattle.chart_write.specs.Writing.{link_body};
ghost use Rattle.chart_image.specs.Image.{chart_image_size, nodes_start, links_start, node_image, chart_image};

use crate::{LINK_SIZE, LINKS_START, NODE_SIZE, NODES_START};
use chart::{Chart, ChartNode, Links, MOST_LINKS, MOST_NODES, Nodes};

// A node's 28 bytes, stored from a place on.
fn put_node(image: &mut [u8], at: usize, n: ChartNode)
    requires { at ≤ chart_image_size }
    ensures { image.new ≡ sets image.old at (node_image n) }
{
    buffer::put_all(image, at, &address_bytes::station_bytes(n.station));
    buffer::put_all(image, at + 3, &[n.length]);
    buffer::put_all(image, at + 4, &n.label);
}

// The bytes of all 16 places of nodes: zeros past the count.
fn put_nodes(image: &mut [u8], nodes: Nodes)
    ensures { image.new ≡ sets image.old nodes_start (joined node_image (up_to nodes.count no_node (node_at nodes)) most_nodes) }
{
    let n = nodes.count.min(MOST_NODES) as usize;
    for (i, node) in nodes.items[..n].iter().enumerate() {
        put_node(image, NODES_START + NODE_SIZE * i, *node);
    }
    buffer::put_zeros(image, NODES_START + NODE_SIZE * n, NODE_SIZE * (16 - n));
}

// The bytes of all 48 places of links: zeros past the count.
fn put_links(image: &mut [u8], links: Links)
    ensures { image.new ≡ sets image.old links_start (joined (link_body directed) (up_to links.count no_link (link_at links)) most_links) }
{
    let n = links.count.min(MOST_LINKS) as usize;
    for (i, l) in links.items[..n].iter().enumerate() {
        buffer::put_all(
            image,
            LINKS_START + LINK_SIZE * i,
            &chart_write::link_body(*l),
        );
    }
    buffer::put_zeros(image, LINKS_START + LINK_SIZE * n, LINK_SIZE * (48 - n));
}

// The chart; bytes past the end of an image are left out.
pub fn put_chart(image: &mut [u8], c: Chart)
    ensures { image.new ≡ sets image.old 0 (chart_image c) }
{
    buffer::put_all(image, 0, &[c.nodes.count, c.links.count, c.links.form]);
    buffer::put_all(image, 3, &address_bytes::station_bytes(c.from));
    buffer::put_all(image, 6, &address_bytes::station_bytes(c.to));
    put_nodes(image, c.nodes);
    put_links(image, c.links);
}
