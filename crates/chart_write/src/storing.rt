// The bytes of a chart, stored field by field.
ghost use Rattle.std.specs.Prelude.{◌≡◌, ◌∷◌, ◌+◌, ◌*◌, ◌≤◌, length};
ghost use Rattle.std.proofs.lemmas.List.Edits.{sets};
ghost use Rattle.lists.specs.Places.{element_at, firsts, joined};
ghost use Rattle.buffer.specs.Bytes.{word_bytes};
ghost use Rattle.chart.specs.Values.{longest_label, most_links, node_at, link_at};
ghost use Rattle.chart_read.specs.Fields.{longest_node, directed_length, tagged};
ghost use Rattle.chart_refuse.specs.Refusal.{chart_refusal};
ghost use Rattle.chart_write.specs.Writing.{node_body, node_field, link_field, head_size, link_field_size, most_node_bytes, chart_bytes};
ghost use Rattle.chart_write.specs.Private.{longest_body, Short};

use crate::bytes::{link_body, question_body};
use chart::{Chart, ChartNode, DIRECTED, Link, Links, Nodes};
use chart_read::{
    NODE_TAG, PLAIN_LENGTH, QUESTION_LENGTH, QUESTION_TAG, SHORTEST_NODE, link_length,
};

// The size of a field's tag and length, and of the question's field.
const HEAD_SIZE: usize = 3;

const QUESTION_FIELD_SIZE: usize = HEAD_SIZE + QUESTION_LENGTH;

// The length of a node's body.
fn node_length(n: ChartNode) -> usize
    requires { n.length ≤ longest_label }
    ensures { (result ≡ length (node_body n)) × (result ≤ longest_node) }
{
    SHORTEST_NODE + n.length as usize
}

// The size of the nodes' fields.
fn nodes_size(nodes: Nodes) -> usize
    requires { Short nodes }
    ensures { (result ≡ length (joined node_field (node_at nodes) nodes.count)) × (result ≤ most_node_bytes) }
{
    let mut size: usize = 0;
    for n in &nodes.items[..nodes.count as usize] {
        size += HEAD_SIZE + node_length(*n);
    }
    size
}

// The size of a link's field, by its form.
fn link_field_size(form: u8) -> usize
    ensures { (result ≡ link_field_size form) × (result ≤ head_size + directed_length) }
{
    HEAD_SIZE + link_length(form)
}

// The size of a chart.
pub fn chart_size(c: Chart) -> usize
    requires { chart_refusal c ≡ 0 }
    ensures { result ≡ length (chart_bytes c) }
{
    nodes_size(c.nodes)
        + link_field_size(c.links.form) * (c.links.count as usize)
        + QUESTION_FIELD_SIZE
}

// A field's tag and the length of its body, from an offset on.
fn put_head(out: &mut [u8], at: usize, tag: u8, long: usize)
    requires { (at + head_size ≤ length out.old) × (long ≤ longest_body) }
    ensures { out.new ≡ sets out.old at (tag ∷ word_bytes long) }
{
    let [high, low] = (long as u16).to_be_bytes();
    out[at] = tag;
    out[at + 1] = high;
    out[at + 2] = low;
}

// The field of a body, from an offset on.
fn put_field(out: &mut [u8], at: usize, tag: u8, body: &[u8])
    requires { (at + head_size + length body.now ≤ length out.old) × (length body.now ≤ longest_body) }
    ensures { out.new ≡ sets out.old at (tagged tag body.now) }
{
    put_head(out, at, tag, body.len());
    buffer::put_all(out, at + HEAD_SIZE, body);
}

// The first n bytes of a label, from an offset on.
fn put_label(out: &mut [u8], at: usize, label: [u8; 24], n: usize)
    requires { n ≤ longest_label }
    ensures { out.new ≡ sets out.old at (firsts (element_at 0 label) n) }
{
    buffer::put_all(out, at, &label[..n]);
}

// A node's field, from an offset on.
fn put_node(out: &mut [u8], at: usize, n: ChartNode)
    requires { (n.length ≤ longest_label) × (at + length (node_field n) ≤ length out.old) }
    ensures { out.new ≡ sets out.old at (node_field n) }
{
    put_head(out, at, NODE_TAG, node_length(n));
    let body = at + HEAD_SIZE;
    let s = address_bytes::station_bytes(n.station);
    buffer::put_all(out, body, &s);
    put_label(out, body + SHORTEST_NODE, n.label, n.length as usize);
}

// The nodes' fields at the start, and the offset past them.
fn put_nodes(out: &mut [u8], nodes: Nodes) -> usize
    requires { Short nodes × (length (joined node_field (node_at nodes) nodes.count) ≤ length out.old) }
    ensures { (result ≡ length (joined node_field (node_at nodes) nodes.count)) × (out.new ≡ sets out.old 0 (joined node_field (node_at nodes) nodes.count)) }
{
    let mut at: usize = 0;
    for n in &nodes.items[..nodes.count as usize] {
        put_node(out, at, *n);
        at += HEAD_SIZE + node_length(*n);
    }
    at
}

// The field of a link of this form, from an offset on.
fn put_link(out: &mut [u8], at: usize, form: u8, l: Link)
    requires { at + link_field_size form ≤ length out.old }
    ensures { out.new ≡ sets out.old at (link_field form l) }
{
    let b = link_body(l);
    if form == DIRECTED {
        put_field(out, at, form, &b);
        return;
    }
    put_field(out, at, form, &b[..PLAIN_LENGTH]);
}

// The links' fields, from an offset on.
fn put_links(out: &mut [u8], at: usize, links: Links)
    requires { (links.count ≤ most_links) × (at + link_field_size links.form * links.count ≤ length out.old) }
    ensures { out.new ≡ sets out.old at (joined (link_field links.form) (link_at links) links.count) }
{
    let size = link_field_size(links.form);
    for (i, l) in links.items[..links.count as usize].iter().enumerate() {
        put_link(out, at + size * i, links.form, *l);
    }
}

// A chart's bytes at the start.
pub fn put_chart(c: Chart, out: &mut [u8])
    requires { (chart_refusal c ≡ 0) × (length (chart_bytes c) ≤ length out.old) }
    ensures { out.new ≡ sets out.old 0 (chart_bytes c) }
{
    let links = c.links;
    let at = put_nodes(out, c.nodes);
    put_links(out, at, links);
    let next = at + link_field_size(links.form) * (links.count as usize);
    put_field(out, next, QUESTION_TAG, &question_body(c.from, c.to));
}
