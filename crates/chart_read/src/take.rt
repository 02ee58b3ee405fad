// Taking one field after those before it. All that a walk over fields has to keep for that are the keys of what was taken.
ghost use Rattle.std.specs.Prelude.{◌≡◌, true};
ghost use Rattle.refusal.specs.Numbers.{number_in};
ghost use Rattle.chart_read.specs.Fields.{node_tag, question_tag, is_form};
ghost use Rattle.chart_read.specs.Private.{no_keys, Takes, TakesField};

use crate::bodies::{body_at, link_in, node_in, past_field};
use crate::numbers::{
    NODE_TAG, QUESTION_TAG, link_body_refusal, node_body_refusal, question_body_refusal,
};
use crate::{Counts, Keys};
use chart::{DIRECTED, PLAIN};
use refusal::Refusal;

// The keys before the first field.
pub fn no_keys() -> Keys
    ensures { result ≡ no_keys }
{
    Keys {
        keys: [0u32; 16],
        akeys: [0u32; 48],
        bkeys: [0u32; 48],
        counts: Counts {
            nodes: 0,
            links: 0,
            form: PLAIN,
            asked: false,
        },
    }
}

// A node's body: unless it is refused, its key is stored after those before it, and it is counted.
fn take_node(keys: &mut Keys, b: &[u8]) -> Result<(), Refusal>
    ensures { Takes keys.old node_tag b.now (number_in result) keys.new }
{
    let counts = keys.counts;
    let n = counts.nodes;
    node_body_refusal(counts.asked | (0 < counts.links), &keys.keys, n, b)?;
    let node = node_in(b);
    keys.keys[n] = chart_refuse::station_key(node.station);
    keys.counts.nodes = n + 1;
    Ok(())
}

// The body of a link of this form, likewise: the keys of both its ends.
fn take_link(keys: &mut Keys, form: u8, b: &[u8]) -> Result<(), Refusal>
    requires { is_form form ≡ true }
    ensures { Takes keys.old form b.now (number_in result) keys.new }
{
    let counts = keys.counts;
    let m = counts.links;
    let late = counts.asked | ((0 < m) & (counts.form != form));
    link_body_refusal(
        late,
        form,
        &keys.keys,
        counts.nodes,
        &keys.akeys,
        &keys.bkeys,
        m,
        b,
    )?;
    let link = link_in(b);
    keys.akeys[m] = chart_refuse::end_key(link.a);
    keys.bkeys[m] = chart_refuse::end_key(link.b);
    keys.counts.links = m + 1;
    keys.counts.form = form;
    Ok(())
}

// The question's body, likewise: it has no key.
fn take_question(keys: &mut Keys, b: &[u8]) -> Result<(), Refusal>
    ensures { Takes keys.old question_tag b.now (number_in result) keys.new }
{
    let counts = keys.counts;
    question_body_refusal(counts.asked, &keys.keys, counts.nodes, b)?;
    keys.counts.asked = true;
    Ok(())
}

// The field that begins at a place: its body, likewise. One that begins past the input's end is cut short.
pub fn take_field(keys: &mut Keys, bytes: &[u8], at: usize) -> Result<(), Refusal>
    ensures { TakesField keys.old bytes.now at (number_in result) keys.new }
{
    if bytes.len() <= at {
        return Err(Refusal::ChartCut);
    }
    if bytes.len() < past_field(bytes, at) {
        return Err(Refusal::ChartCut);
    }
    let b = body_at(bytes, at);
    let tag = bytes[at];
    match tag {
        NODE_TAG => take_node(keys, b),
        PLAIN | DIRECTED => take_link(keys, tag, b),
        QUESTION_TAG => take_question(keys, b),
        _ => Err(Refusal::ChartTag),
    }
}
