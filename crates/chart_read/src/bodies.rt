// Where a field's body is, and what a body of each tag says. A part of a body whose length the compiler knows is read without a test for its end.
ghost use Rattle.std.specs.Prelude.{◌≡◌, ◌+◌, ◌<◌, ◌≤◌, length};
ghost use Rattle.lists.specs.Places.{row};
ghost use Rattle.chart_read.specs.Fields.{past_field, body_at, bytes_from, node_in, link_in};
ghost use Rattle.chart_read.specs.Private.{field_end};
ghost use Rattle.chart.specs.Values.{longest_label};

use chart::{ChartNode, Link};

// The place past the field that begins at a place.
pub fn past_field(bytes: &[u8], at: usize) -> usize
    requires { at < length bytes.now }
    ensures { result ≡ past_field bytes.now at }
{
    at + 3 + buffer::word_at(bytes, at + 1) as usize
}

// The same, or the input's end where that field is cut short.
pub fn field_end(bytes: &[u8], at: usize) -> usize
    ensures { result ≡ field_end bytes.now at }
{
    if bytes.len() <= at {
        return bytes.len();
    }
    past_field(bytes, at).min(bytes.len())
}

// The body of the field that begins at a place, which is whole.
pub fn body_at(bytes: &[u8], at: usize) -> &[u8]
    requires { (at < length bytes.now) × (past_field bytes.now at ≤ length bytes.now) }
    ensures { result.now ≡ body_at bytes.now at }
{
    let next = past_field(bytes, at);
    &bytes[at + 3..next]
}

// The label: n bytes after the station, and zeros after them.
fn label_in(b: &[u8], n: usize) -> [u8; 24]
    requires { (n ≤ longest_label) × (3 + n ≤ length b.now) }
    ensures { result ≡ row longest_label 0 (bytes_from b.now 3) n }
{
    let mut label = [0u8; 24];
    label[..n].copy_from_slice(&b[3..3 + n]);
    label
}

// The node of a body.
pub fn node_in(b: &[u8]) -> ChartNode
    requires { (3 ≤ length b.now) × (length b.now ≤ 27) }
    ensures { result ≡ node_in b.now }
{
    let n = b.len() - 3;
    ChartNode {
        station: address_bytes::station_in(&b[..3], 0),
        length: n as u8,
        label: label_in(b, n),
    }
}

// The link of a body, which may end before the direction.
pub fn link_in(b: &[u8]) -> Link
    requires { 9 ≤ length b.now }
    ensures { result ≡ link_in b.now }
{
    let ends = &b[..8];
    Link {
        a: address_bytes::address_in(ends, 0),
        b: address_bytes::address_in(ends, 4),
        on: b[8] == 1,
        direction: buffer::byte_at(b, 9),
    }
}
