// What refuses a chart given as values (document 01, "The chart"). Nodes and ends are compared by their keys.
ghost use Rattle.std.specs.Prelude.{◌≡◌, ◌≤◌, length};
ghost use Rattle.lists.specs.Chains.{first_refusal_below};
ghost use Rattle.refusal.specs.Numbers.{number_in};
ghost use Rattle.chart_refuse.specs.Private.{KeyedNodes, KeyedLinks};
ghost use Rattle.chart_refuse.specs.Refusal.{node_refusal_at, link_refusal_at, chart_refusal};
ghost use Rattle.chart.specs.Values.{most_links, most_nodes};

use crate::keys::{end_key, station_keys};
use crate::numbers::{link_refusal, node_refusal, question_refusal};
use chart::{Chart, Links, MOST_LINKS, MOST_NODES, Nodes};
use refusal::Refusal;

// The keys of the links' first ends, and of their second ends.
fn link_keys(links: Links, akeys: &mut [u32; 48], bkeys: &mut [u32; 48])
    requires { (links.count ≤ most_links) × (length akeys.old ≡ most_links) × (length bkeys.old ≡ most_links) }
    ensures { KeyedLinks links akeys.new bkeys.new }
{
    let n = links.count as usize;
    for (i, l) in links.items[..n].iter().enumerate() {
        akeys[i] = end_key(l.a);
        bkeys[i] = end_key(l.b);
    }
}

// What refuses the first bad node.
fn nodes_refusal(nodes: Nodes, keys: &[u32; 16]) -> Result<(), Refusal>
    requires { (nodes.count ≤ most_nodes) × KeyedNodes nodes keys.now }
    ensures { number_in result ≡ first_refusal_below (node_refusal_at nodes) nodes.count }
{
    let n = nodes.count as usize;
    for (i, node) in nodes.items[..n].iter().enumerate() {
        node_refusal(false, keys, i, *node)?;
    }
    Ok(())
}

// What refuses the first bad link.
fn links_refusal(
    nodes: Nodes,
    keys: &[u32; 16],
    links: Links,
    akeys: &[u32; 48],
    bkeys: &[u32; 48],
) -> Result<(), Refusal>
    requires { (links.count ≤ most_links) × KeyedNodes nodes keys.now × KeyedLinks links akeys.now bkeys.now }
    ensures { number_in result ≡ first_refusal_below (link_refusal_at nodes links) links.count }
{
    let n = nodes.count as usize;
    let m = links.count as usize;
    for (i, l) in links.items[..m].iter().enumerate() {
        link_refusal(false, links.form, keys, n, akeys, bkeys, i, *l)?;
    }
    Ok(())
}

// What refuses a chart: the counts first, then the first bad value.
pub fn chart_refusal(c: Chart) -> Result<(), Refusal>
    ensures { number_in result ≡ chart_refusal c }
{
    let nodes = c.nodes;
    if MOST_NODES < nodes.count {
        return Err(Refusal::ChartCrowd);
    }
    let links = c.links;
    if MOST_LINKS < links.count {
        return Err(Refusal::ChartCrowd);
    }
    let keys = station_keys(nodes);
    nodes_refusal(nodes, &keys)?;
    let mut akeys = [0u32; 48];
    let mut bkeys = [0u32; 48];
    link_keys(links, &mut akeys, &mut bkeys);
    links_refusal(nodes, &keys, links, &akeys, &bkeys)?;
    question_refusal(false, &keys, nodes.count as usize, c.from, c.to)
}
