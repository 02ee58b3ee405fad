// The printed sheet (document 01, "The printed sheet"; document 02, Five): what is printed of an input, in a lent buffer.
#![tactic(auto)]

ghost use Rattle.std.specs.Prelude.{◌≡◌, ◌≤◌, length};
ghost use Rattle.lists.specs.Places.{joined};
ghost use Rattle.lists.specs.Refusals.{unless_refused};
ghost use Rattle.refusal.specs.Numbers.{Answers};
ghost use Rattle.buffer.specs.Writing.{written, written_refusal, written_count};
ghost use Rattle.chart.specs.Values.{most_links, most_nodes, node_at, link_at};
ghost use Rattle.chart_refuse.specs.Refusal.{chart_refusal};
ghost use Rattle.chart_net.specs.Net.{routes_of};
ghost use Rattle.text.specs.Private.{Laid};
ghost use Rattle.sheet_lines.specs.Lines.{node_line, link_line};
ghost use Rattle.sheet_routes.specs.RouteLines.{most_routes, list_text};
ghost use Rattle.sheet.specs.Sheet.{place, line_at, chart_text, sheet_text, sheet_refusal, write_sheet_of, sheet_after};

use chart::{Chart, Links, Nodes};
use chart_net::{asked_of, ends_of, passages_for};
use chart_read::read_chart;
use refusal::Refusal;
use sheet_lines::{put_counts, put_link, put_node, put_question, put_refused};
use sheet_routes::put_routes;
use text::put_bytes;

// An input above this is not looked at.
pub const LONGEST_INPUT: usize = 4096;

// No sheet is longer: a buffer of this size is never refused.
pub const LONGEST_SHEET: usize = 47369;

// The node lines.
fn put_nodes(out: &mut [u8], at: usize, nodes: Nodes) -> usize
    requires { nodes.count ≤ most_nodes }
    ensures { Laid out.old at (joined (line_at node_line (node_at nodes)) place nodes.count) out.new result }
{
    let mut next = at;
    for (i, n) in nodes.items[..nodes.count as usize].iter().enumerate() {
        next = put_node(out, next, i, *n);
    }
    next
}

// The link lines.
fn put_links(out: &mut [u8], at: usize, links: Links) -> usize
    requires { links.count ≤ most_links }
    ensures { Laid out.old at (joined (line_at link_line (link_at links)) place links.count) out.new result }
{
    let mut next = at;
    for (i, l) in links.items[..links.count as usize].iter().enumerate() {
        next = put_link(out, next, i, *l);
    }
    next
}

// The route lines of an accepted chart, and the last line.
fn put_chart_routes(out: &mut [u8], at: usize, c: Chart) -> usize
    requires { chart_refusal c ≡ 0 }
    ensures { Laid out.old at (list_text most_routes (routes_of c)) out.new result }
{
    let ends = ends_of(c);
    let ways = passages_for(c.links);
    let asked = asked_of(c);
    put_routes(
        out,
        at,
        ends,
        ways,
        c.links.count as usize,
        asked.from,
        asked.to,
    )
}

// The sheet of an accepted chart.
fn put_chart(out: &mut [u8], at: usize, c: Chart) -> usize
    requires { chart_refusal c ≡ 0 }
    ensures { Laid out.old at (chart_text c) out.new result }
{
    let n1 = put_counts(out, at, c.nodes.count, c.links.count);
    let n2 = put_nodes(out, n1, c.nodes);
    let n3 = put_links(out, n2, c.links);
    let n4 = put_question(out, n3, c.from, c.to);
    put_chart_routes(out, n4, c)
}

// The sheet of an input: that of its chart, or the line of a refused one.
fn put_sheet(out: &mut [u8], at: usize, bytes: &[u8]) -> usize
    ensures { Laid out.old at (sheet_text bytes.now) out.new result }
{
    if LONGEST_INPUT < bytes.len() {
        return put_bytes(out, at, b"too long\n");
    }
    match read_chart(bytes) {
        Ok(c) => put_chart(out, at, c),
        Err(fault) => put_refused(out, at, fault.refusal.number(), fault.place),
    }
}

// Writes the sheet of an input at the start of out, and gives the number of bytes written; 10 where there is no room for all of it. In a buffer that may
// be too short it is measured first, by writing it into an empty one.
pub fn write_sheet(bytes: &[u8], out: &mut [u8]) -> Result<usize, Refusal>
    ensures value { Answers result (sheet_refusal bytes.now (length out.old)) (length (sheet_text bytes.now)) }
    ensures buffer { out.new ≡ sheet_after bytes.now out.old }
    ensures answer { written result ≡ write_sheet_of bytes.now (length out.old) }
    ensures refusal { written_refusal (written result) ≡ sheet_refusal bytes.now (length out.old) }
    ensures count { written_count (written result) ≡ unless_refused (sheet_refusal bytes.now (length out.old)) (length (sheet_text bytes.now)) 0 }
{
    if LONGEST_SHEET <= out.len() {
        let all = put_sheet(out, 0, bytes);
        return Ok(all);
    }
    let n = put_sheet(&mut out[..0], 0, bytes);
    if out.len() < n {
        return Err(Refusal::NoRoom);
    }
    put_sheet(out, 0, bytes);
    Ok(n)
}
