// The lines of the printed sheet but its routes (document 01, "The printed sheet"; document 02, Five).
#![tactic(auto)]

ghost use Rattle.std.specs.Prelude.{◌++◌, take};
ghost use Rattle.text.specs.Private.{Laid};
ghost use Rattle.text.specs.Marks.{blank, lf};
ghost use Rattle.text.specs.Decimal.{decimal};
ghost use Rattle.sheet_lines.specs.Lines.{station_text, end_text, label_text, node_line, on_off, direction_text, link_line, question_line};

use address::{Address, Station};
use chart::{BOTH_WAYS, ChartNode, Link, OUT_ONLY};
use text::{put_byte, put_bytes, put_number};

mod numbers;

pub use numbers::{put_counts, put_refused};

// Some bytes, and a number after them.
fn put_numbered(out: &mut [u8], at: usize, before: &[u8], n: usize) -> usize
    ensures { Laid out.old at (before.now ++ decimal n) out.new result }
{
    let next = put_bytes(out, at, before);
    put_number(out, next, n)
}

// Some bytes, and a station after them: brigade/node.
fn put_station(out: &mut [u8], at: usize, before: &[u8], s: Station) -> usize
    ensures { Laid out.old at (before.now ++ station_text s) out.new result }
{
    let next = put_numbered(out, at, before, s.brigade as usize);
    put_numbered(out, next, b"/", s.node.0 as usize)
}

// A blank, and a link's end after it: brigade/node/port.
fn put_end(out: &mut [u8], at: usize, e: Address) -> usize
    ensures { Laid out.old at (blank ++ end_text e) out.new result }
{
    let next = put_station(out, at, b" ", address::station_of(e));
    put_numbered(out, next, b"/", e.port.0 as usize)
}

// A blank and the first bytes of a label, as many as it has; nothing where it has none.
fn put_label(out: &mut [u8], at: usize, label: [u8; 24], long: u8) -> usize
    ensures { Laid out.old at (label_text (take long label)) out.new result }
{
    if long == 0 {
        return at;
    }
    let next = put_byte(out, at, b' ');
    put_bytes(out, next, &label[..(long as usize).min(24)])
}

// The line of the node at a place.
pub fn put_node(out: &mut [u8], at: usize, i: usize, n: ChartNode) -> usize
    ensures { Laid out.old at (node_line i n) out.new result }
{
    let n1 = put_number(out, at, i);
    let n2 = put_station(out, n1, b" ", n.station);
    let n3 = put_label(out, n2, n.label, n.length);
    put_byte(out, n3, b'\n')
}

// A blank, and whether a link is on.
fn put_on(out: &mut [u8], at: usize, on: bool) -> usize
    ensures { Laid out.old at (blank ++ on_off on) out.new result }
{
    if on {
        return put_bytes(out, at, b" on");
    }
    put_bytes(out, at, b" off")
}

// A blank, a link's direction, and the line's end.
fn put_direction(out: &mut [u8], at: usize, d: u8) -> usize
    ensures { Laid out.old at (blank ++ direction_text d ++ lf) out.new result }
{
    if d == BOTH_WAYS {
        return put_bytes(out, at, b" both\n");
    }
    if d == OUT_ONLY {
        return put_bytes(out, at, b" out\n");
    }
    put_bytes(out, at, b" back\n")
}

// The line of the link at a place.
pub fn put_link(out: &mut [u8], at: usize, i: usize, l: Link) -> usize
    ensures { Laid out.old at (link_line i l) out.new result }
{
    let n1 = put_number(out, at, i);
    let n2 = put_end(out, n1, l.a);
    let n3 = put_end(out, n2, l.b);
    let n4 = put_on(out, n3, l.on);
    put_direction(out, n4, l.direction)
}

// The question's line.
pub fn put_question(out: &mut [u8], at: usize, from: Station, to: Station) -> usize
    ensures { Laid out.old at (question_line from to) out.new result }
{
    let n1 = put_station(out, at, b"from ", from);
    let n2 = put_station(out, n1, b" to ", to);
    put_byte(out, n2, b'\n')
}
