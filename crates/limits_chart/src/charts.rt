// Charts, read and written.
ghost use Rattle.std.specs.Prelude.{◌≤◌};

use crate::answers::answered;
use address::{Address, Node, Port, Station};
use chart::{BOTH_WAYS, Chart, ChartNode, Link, Links, Nodes, PLAIN};
use limits_script::{byte, bytes, taken};
use refusal::{Fault, Refusal};
use std::io;

// The number, the place, and how many nodes.
fn report(rt: &impl Print, answer: Result<Chart, Fault>) -> io::Result<()> {
    match answer {
        Ok(c) => answered(rt, 0, 0, c.nodes.count as u64),
        Err(fault) => answered(rt, fault.refusal.number(), fault.place as u64, 0),
    }
}

// c length, then the chart's bytes: number, place, nodes
pub fn read(rt: &impl Print, v: &[u16; 64]) -> io::Result<()> {
    let chart = bytes(v);
    let n = taken(v[0], &chart);
    report(rt, chart_read::read_chart(&chart[..n]))
}

// Nodes 9/0, 9/1 and so on, each with a label of so many bytes, which stay as they are; the place after them.
fn put_nodes(out: &mut [u8; 2000], count: u8, label: u8) -> usize
    ensures { result ≤ 80000 }
{
    let mut at: usize = 0;
    for i in 0..count {
        buffer::put_all(out, at, &[1, 0, 3 + label % 32, 9, 0, i]);
        at += 6 + label as usize;
    }
    at
}

// The link at a place: from node 0 to 1, 1 to 2 and so on, 15 to 0, and round again by other ports.
fn link_bytes(i: u8) -> [u8; 12] {
    let port = 1 + 2 * (i / 16);
    [
        2,
        0,
        9,
        9,
        0,
        i % 16,
        port,
        9,
        0,
        (i % 16 + 1) % 16,
        port + 1,
        1,
    ]
}

// Links from a place on; the place after them.
fn put_links(out: &mut [u8; 2000], from: usize, count: u8) -> usize
    requires { from ≤ 80000 }
    ensures { result ≤ 90000 }
{
    let mut at = from;
    for i in 0..count {
        buffer::put_all(out, at, &link_bytes(i));
        at += 12;
    }
    at
}

// The shape of a chart that is built: so many nodes with labels of a length, and so many links, from 9/0 to 9/to.
#[derive(Clone, Copy)]
pub struct Shape {
    pub nodes: u16,
    pub links: u16,
    pub label: u16,
    pub to: u16,
}

// The bytes of such a chart; how many they are.
pub fn put_built(out: &mut [u8; 2000], s: Shape) -> u16 {
    let from = put_nodes(out, byte(s.nodes), byte(s.label));
    let at = put_links(out, from, byte(s.links));
    buffer::put_all(out, at, &[3, 0, 6, 9, 0, 0, 9, 0, byte(s.to)]);
    (at % 65000) as u16 + 9
}

// The chart in the first n of 2,000 bytes.
fn read_start(chart: &[u8; 2000], n: u16) -> Result<Chart, Fault> {
    let long = taken(n, chart);
    chart_read::read_chart(&chart[..long])
}

// What the built chart is read as.
pub fn built(s: Shape) -> Result<Chart, Fault> {
    let mut chart = [b'a'; 2000];
    let n = put_built(&mut chart, s);
    read_start(&chart, n)
}

// The chart of a line that begins with nodes, links and label.
fn asked(v: &[u16; 64]) -> Shape {
    Shape {
        nodes: v[0],
        links: v[1],
        label: v[2],
        to: 1,
    }
}

// C nodes links label: number, place, nodes
pub fn read_built(rt: &impl Print, v: &[u16; 64]) -> io::Result<()> {
    report(rt, built(asked(v)))
}

// What a writer answers: the number and how many bytes.
fn report_written(rt: &impl Print, answer: Result<usize, Refusal>) -> io::Result<()> {
    match answer {
        Ok(n) => answered(rt, 0, n as u64, 0),
        Err(refusal) => answered(rt, refusal.number(), 0, 0),
    }
}

pub fn station(node: u16) -> Station {
    Station {
        brigade: 9,
        node: Node(node),
    }
}

// A node of brigade 9, its label one letter over and over.
fn node(number: u16, length: u16, letter: u16) -> ChartNode {
    ChartNode {
        station: station(number),
        length: byte(length),
        label: [byte(letter); 24],
    }
}

// Nodes of which the first is given, and every other is 9/20.
fn nodes(count: u16, first: ChartNode) -> Nodes {
    let mut items = [node(20, 0, 97); 16];
    items[0] = first;
    Nodes {
        count: byte(count),
        items,
    }
}

// An end of a link, of brigade 9.
fn end(node: u16, port: u16) -> Address {
    Address {
        brigade: 9,
        node: Node(node),
        port: Port(byte(port)),
    }
}

// Links of a form that are all alike.
fn links_of(form: u8, direction: u8, count: u16, a: Address, b: Address) -> Links {
    let link = Link {
        a,
        b,
        on: true,
        direction,
    };
    let items = [link; 48];
    Links {
        count: byte(count),
        form,
        items,
    }
}

// Plain links that are all alike.
fn links(count: u16, a: Address, b: Address) -> Links {
    links_of(PLAIN, BOTH_WAYS, count, a, b)
}

// Writes a chart into a buffer of a length.
fn put_into(rt: &impl Print, c: Chart, room: u16) -> io::Result<()> {
    let mut out = [0u8; 1113];
    let n = taken(room, &out);
    report_written(rt, chart_write::write_chart(c, &mut out[..n]))
}

// v nodes links label letter node a-node a-port b-node b-port to-node room: number, bytes, 0. The first node is 9/node and every other 9/20; every link is
// from 9/a-node/a-port to 9/b-node/b-port; the question is from 9/node to 9/to-node.
pub fn write(rt: &impl Print, v: &[u16; 64]) -> io::Result<()> {
    let c = Chart {
        nodes: nodes(v[0], node(v[4], v[2], v[3])),
        links: links(v[1], end(v[5], v[6]), end(v[7], v[8])),
        from: station(v[4]),
        to: station(v[9]),
    };
    put_into(rt, c, v[10])
}

// d form direction links room: number, bytes, 0. The nodes are 9/1 and 9/20; every link is from 9/1/2 to 9/20/1, of this form and direction.
pub fn write_directed(rt: &impl Print, v: &[u16; 64]) -> io::Result<()> {
    let c = Chart {
        nodes: nodes(2, node(1, 0, 97)),
        links: links_of(byte(v[0]), byte(v[1]), v[2], end(1, 2), end(20, 1)),
        from: station(1),
        to: station(20),
    };
    put_into(rt, c, v[3])
}

// The chart with other counts.
fn counted(c: Chart, nodes: u16, links: u16) -> Chart {
    let mut d = c;
    d.nodes.count = byte(nodes);
    d.links.count = byte(links);
    d
}

// The built chart as values, with the counts that were asked for.
pub fn built_chart(s: Shape) -> Chart {
    let answer = built(Shape {
        nodes: s.nodes.min(16),
        links: s.links.min(48),
        ..s
    });
    counted(answer.unwrap_or(chart::no_chart()), s.nodes, s.links)
}

// V nodes links label room: number, bytes, 0
pub fn write_built(rt: &impl Print, v: &[u16; 64]) -> io::Result<()> {
    put_into(rt, built_chart(asked(v)), v[3])
}
