// What refuses a body, by the keys of the nodes and links before it: the first n of `keys`, the first m of `akeys` and `bkeys`.
ghost use Rattle.std.specs.Prelude.{◌≡◌};
ghost use Rattle.refusal.specs.Numbers.{number_in};
ghost use Rattle.chart_refuse.specs.Private.{node_refusal_by_keys, link_refusal_by_keys, question_refusal_by_keys};
ghost use Rattle.chart_read.specs.Fields.{link_length};
ghost use Rattle.chart_read.specs.Reading.{node_body_refusal, link_body_refusal, question_body_refusal};

use crate::bodies::{link_in, node_in};
use chart::DIRECTED;
use refusal::Refusal;

pub const NODE_TAG: u8 = 1;

pub const QUESTION_TAG: u8 = 3;

pub const SHORTEST_NODE: usize = 3;

const LONGEST_NODE: usize = 27;

pub const PLAIN_LENGTH: usize = 9;

pub const DIRECTED_LENGTH: usize = 10;

pub const QUESTION_LENGTH: usize = 6;

// A node's body.
pub fn node_body_refusal(late: bool, keys: &[u32; 16], n: usize, b: &[u8]) -> Result<(), Refusal>
    ensures { number_in result ≡ node_body_refusal (node_refusal_by_keys late keys.now n) b.now }
{
    if b.len() < SHORTEST_NODE {
        return Err(Refusal::ChartLength);
    }
    if LONGEST_NODE < b.len() {
        return Err(Refusal::ChartLength);
    }
    let node = node_in(b);
    chart_refuse::node_refusal(late, keys, n, node)
}

// The length of a link's body, by its form.
pub fn link_length(form: u8) -> usize
    ensures { result ≡ link_length form }
{
    if form == DIRECTED {
        return DIRECTED_LENGTH;
    }
    PLAIN_LENGTH
}

// The body of a link of this form.
pub fn link_body_refusal(
    late: bool,
    form: u8,
    keys: &[u32; 16],
    n: usize,
    akeys: &[u32; 48],
    bkeys: &[u32; 48],
    m: usize,
    b: &[u8],
) -> Result<(), Refusal>
    ensures { number_in result ≡ link_body_refusal form (link_refusal_by_keys late form keys.now n akeys.now bkeys.now m) b.now }
{
    if b.len() != link_length(form) {
        return Err(Refusal::ChartLength);
    }
    if 1 < b[8] {
        return Err(Refusal::ChartRange);
    }
    let l = link_in(b);
    chart_refuse::link_refusal(late, form, keys, n, akeys, bkeys, m, l)
}

// The question's body.
pub fn question_body_refusal(
    asked: bool,
    keys: &[u32; 16],
    n: usize,
    b: &[u8],
) -> Result<(), Refusal>
    ensures { number_in result ≡ question_body_refusal (question_refusal_by_keys asked keys.now n) b.now }
{
    if b.len() != QUESTION_LENGTH {
        return Err(Refusal::ChartLength);
    }
    let from = address_bytes::station_in(b, 0);
    let to = address_bytes::station_in(b, 3);
    chart_refuse::question_refusal(asked, keys, n, from, to)
}
