// The chart as values (document 01, "The chart"; document 02, Five): its nodes, its links and its question.
#![tactic(auto)]

ghost use Rattle.std.specs.Prelude.{◌≡◌};
ghost use Rattle.chart.specs.Values.{no_node, no_link, no_chart};

use address::{Address, Node, Port, Station};

pub const MOST_NODES: u8 = 16;

pub const MOST_LINKS: u8 = 48;

pub const LONGEST_LABEL: u8 = 24;

// The forms of links: the tag that they are written with.
pub const PLAIN: u8 = 2;

pub const DIRECTED: u8 = 4;

// The directions of a link: both ways, out from its first end to its second, back from its second to its first.
pub const BOTH_WAYS: u8 = 0;

pub const OUT_ONLY: u8 = 1;

pub const BACK_ONLY: u8 = 2;

// A node: its station, and the first `length` bytes of its label. No rule depends on labels.
#[derive(Clone, Copy)]
pub struct ChartNode {
    pub station: Station,
    pub length: u8,
    pub label: [u8; 24],
}

// A link between two ends, on or off, and its direction.
#[derive(Clone, Copy)]
pub struct Link {
    pub a: Address,
    pub b: Address,
    pub on: bool,
    pub direction: u8,
}

// The first `count` items are nodes, the others unused.
#[derive(Clone, Copy)]
pub struct Nodes {
    pub count: u8,
    pub items: [ChartNode; 16],
}

// The first `count` items are links, the others unused; all are written in one form.
#[derive(Clone, Copy)]
pub struct Links {
    pub count: u8,
    pub form: u8,
    pub items: [Link; 48],
}

// Nodes, links and the question.
#[derive(Clone, Copy)]
pub struct Chart {
    pub nodes: Nodes,
    pub links: Links,
    pub from: Station,
    pub to: Station,
}

// What stands at an unused place of nodes: every number 0.
pub fn no_node() -> ChartNode
    ensures { result ≡ no_node }
{
    let station = Station {
        brigade: 0,
        node: Node(0),
    };
    ChartNode {
        station,
        length: 0,
        label: [0u8; 24],
    }
}

// What stands at an unused place of links: every number 0, off.
pub fn no_link() -> Link
    ensures { result ≡ no_link }
{
    let end = Address {
        brigade: 0,
        node: Node(0),
        port: Port(0),
    };
    Link {
        a: end,
        b: end,
        on: false,
        direction: BOTH_WAYS,
    }
}

// The chart that stands beside a refusal: no nodes, no links, every number 0.
pub fn no_chart() -> Chart
    ensures { result ≡ no_chart }
{
    let station = Station {
        brigade: 0,
        node: Node(0),
    };
    let nodes = Nodes {
        count: 0,
        items: [no_node(); 16],
    };
    let links = Links {
        count: 0,
        form: PLAIN,
        items: [no_link(); 48],
    };
    Chart {
        nodes,
        links,
        from: station,
        to: station,
    }
}
