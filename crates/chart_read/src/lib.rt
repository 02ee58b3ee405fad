// The chart's reader (document 01, "The chart"; document 02, Five): tagged fields, taken one after the other.
#![tactic(auto)]

ghost use Rattle.std.specs.Prelude.{◌≡◌};
ghost use Rattle.refusal.specs.Numbers.{AnswersAt};
ghost use Rattle.chart_read.specs.Reading.{chart_answer, read_chart_of};

use bodies::{body_at, link_in, node_in, past_field};
use chart::{Chart, DIRECTED, Links, Nodes, PLAIN};
use refusal::{Fault, Refusal};

mod bodies;
mod numbers;
mod take;

pub use bodies::field_end;
pub use numbers::{
    DIRECTED_LENGTH, NODE_TAG, PLAIN_LENGTH, QUESTION_LENGTH, QUESTION_TAG, SHORTEST_NODE,
    link_length,
};
pub use take::{no_keys, take_field};

// How many nodes and links were taken, the form of the links, and whether the question was.
#[derive(Clone, Copy)]
pub struct Counts {
    pub nodes: usize,
    pub links: usize,
    pub form: u8,
    pub asked: bool,
}

// The keys of the nodes that were taken, and of the first and the second ends of the links, as many as the counts say.
#[derive(Clone, Copy)]
pub struct Keys {
    pub keys: [u32; 16],
    pub akeys: [u32; 48],
    pub bkeys: [u32; 48],
    pub counts: Counts,
}

// The chart that the bytes are, or what refuses the first bad field and its place. The keys of its nodes and of its links' ends are kept beside
// them, so that a field is compared with those before it by one number each.
pub fn read_chart(bytes: &[u8]) -> Result<Chart, Fault>
    ensures value { AnswersAt result (read_chart_of bytes.now).refusal (read_chart_of bytes.now).place (read_chart_of bytes.now).chart }
    ensures answer { chart_answer result ≡ read_chart_of bytes.now }
{
    let no_node = chart::no_node();
    let no_link = chart::no_link();
    let mut nodes = [no_node; 16];
    let mut links = [no_link; 48];
    let mut from = no_node.station;
    let mut to = no_node.station;
    let mut keys = no_keys();
    let mut at: usize = 0;
    while at < bytes.len() {
        let n = keys.counts.nodes;
        let m = keys.counts.links;
        if let Err(refusal) = take_field(&mut keys, bytes, at) {
            return Err(Fault { refusal, place: at });
        }
        let b = body_at(bytes, at);
        let tag = bytes[at];
        at = past_field(bytes, at);
        match tag {
            NODE_TAG => nodes[n] = node_in(b),
            PLAIN | DIRECTED => links[m] = link_in(b),
            _ => {
                from = address_bytes::station_in(b, 0);
                to = address_bytes::station_in(b, 3);
            }
        }
    }
    if !keys.counts.asked {
        return Err(Fault {
            refusal: Refusal::ChartUnasked,
            place: bytes.len(),
        });
    }
    Ok(Chart {
        nodes: Nodes {
            count: keys.counts.nodes as u8,
            items: nodes,
        },
        links: Links {
            count: keys.counts.links as u8,
            form: keys.counts.form,
            items: links,
        },
        from,
        to,
    })
}
