// A node's routing table written from the chart (document 02, Eight).
#![tactic(auto)]

ghost use Rattle.std.specs.Prelude.{◌≡◌, ◌≤◌};
ghost use Rattle.chart.specs.Values.{most_nodes};
ghost use Rattle.refusal.specs.Numbers.{Answers};
ghost use Rattle.table_write.specs.Writing.{near_end, entry_over, table_written, write_table_of};
ghost use Rattle.table_write.specs.Private.{table_over, write_known_of};

use address::{Address, Station};
use chart::{Chart, Link, MOST_LINKS, MOST_NODES};
use refusal::Refusal;
use table::{Entry, Table, Target};

// The end by which one who stands at a station leaves over a link.
fn near_end(l: Link, s: Station) -> Address
    ensures { result ≡ near_end l s }
{
    if address::same_station(address::station_of(l.a), s) {
        return l.a;
    }
    l.b
}

// The entry, on, for the node at a station, out over a link from the station s.
fn entry_over(l: Link, s: Station, to: Station) -> Entry
    ensures { result ≡ entry_over l s to }
{
    Entry {
        target: Target::One(to.brigade, to.node),
        port: near_end(l, s).port,
        on: true,
    }
}

// The table of a station, out by these first links, of which there is one for each of at most 16 nodes.
fn table_over(c: Chart, s: Station, first: [u8; 16]) -> Table
    requires { c.nodes.count ≤ most_nodes }
    ensures { result ≡ table_over c s first }
{
    let mut entries = [table::no_entry(); 32];
    let mut count: usize = 0;
    for b in 0..c.nodes.count as usize {
        let i = first[b];
        if i < MOST_LINKS {
            entries[count] = entry_over(c.links.items[i as usize], s, c.nodes.items[b].station);
            count += 1;
        }
    }
    Table {
        brigade: s.brigade,
        count: count as u8,
        node: s.node,
        entries,
    }
}

// The table of one of the nodes, for a chart that is known to be right; or 44.
pub fn write_known(c: Chart, s: Station) -> Result<Table, Refusal>
    ensures value { Answers result (write_known_of c s).refusal (write_known_of c s).table }
    ensures answer { table_written result ≡ write_known_of c s }
{
    let a = chart_net::place_of(c.nodes, s);
    if (c.nodes.count <= a) | (MOST_NODES <= a) {
        return Err(Refusal::NoNode);
    }
    let ends = chart_net::ends_of(c);
    let ways = chart_net::passages_for(c.links);
    let first = route_fewest::first_links(ends, ways, c.links.count as usize, c.nodes.count, a);
    Ok(table_over(c, s, first))
}

// The table of one of the chart's nodes, written from the chart; or a refusal.
pub fn write_table(c: Chart, s: Station) -> Result<Table, Refusal>
    ensures value { Answers result (write_table_of c s).refusal (write_table_of c s).table }
    ensures answer { table_written result ≡ write_table_of c s }
{
    chart_refuse::chart_refusal(c)?;
    write_known(c, s)
}
