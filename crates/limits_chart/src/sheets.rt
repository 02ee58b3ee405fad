// The printed sheet: of bytes that are no chart, and of a chart with a thousand routes.
use crate::answers::answered;
use limits_script::taken;
use refusal::Refusal;
use std::io;

// The number, the bytes written, and the fourth byte from their end.
fn report(rt: &impl Print, answer: Result<usize, Refusal>, text: &[u8; 65536]) -> io::Result<()> {
    match answer {
        Ok(n) => {
            let last = buffer::byte_at(text, n.saturating_sub(4));
            answered(rt, 0, n as u64, last as u64)
        }
        Err(refusal) => answered(rt, refusal.number(), 0, 0),
    }
}

// The sheet of an input, in a buffer of so many bytes.
fn sheet_in(rt: &impl Print, input: &[u8], room: u16) -> io::Result<()> {
    let mut text = [0u8; 65536];
    let m = taken(room, &text);
    let answer = sheet::write_sheet(input, &mut text[..m]);
    report(rt, answer, &text)
}

// s size room: number, bytes, the fourth from the end. The input is so many bytes 0.
pub fn zeros(rt: &impl Print, v: &[u16; 64]) -> io::Result<()> {
    let input = [0u8; 4100];
    let n = taken(v[0], &input);
    sheet_in(rt, &input[..n], v[1])
}

// The link at a place: ten from node 0 to 1, ten from 1 to 2, ten from 2 to 3.
fn link_bytes(i: u8) -> [u8; 12] {
    let a = i / 10;
    let port = 1 + i % 10;
    [2, 0, 9, 9, 0, a, port, 9, 0, a + 1, port + 10, 1]
}

// Thirty links, after the nodes.
fn put_links(out: &mut [u8; 500]) {
    for i in 0..30u8 {
        buffer::put_all(out, 24 + 12 * (i as usize), &link_bytes(i));
    }
}

// Nodes 9/0 to 9/3 in a row with ten links between each two, asked from the first to the last; where that is asked, one more link between those two.
fn put_chart(out: &mut [u8; 500], more: u16) {
    buffer::put_all(out, 0, &[1, 0, 3, 9, 0, 0, 1, 0, 3, 9, 0, 1]);
    buffer::put_all(out, 12, &[1, 0, 3, 9, 0, 2, 1, 0, 3, 9, 0, 3]);
    put_links(out);
    if more == 0 {
        buffer::put_all(out, 384, &[3, 0, 6, 9, 0, 0, 9, 0, 3]);
    } else {
        buffer::put_all(out, 384, &[2, 0, 9, 9, 0, 0, 30, 9, 0, 3, 30, 1]);
        buffer::put_all(out, 396, &[3, 0, 6, 9, 0, 0, 9, 0, 3]);
    }
}

fn size(more: u16) -> u16 {
    if more == 0 { 393 } else { 405 }
}

// The sheet of the first bytes of a chart.
fn sheet_of(rt: &impl Print, chart: &[u8; 500], size: u16, room: u16) -> io::Result<()> {
    let n = taken(size, chart);
    sheet_in(rt, &chart[..n], room)
}

// S more room: number, bytes, the fourth from the end. The chart has 1,000 routes, or one more.
pub fn thousand(rt: &impl Print, v: &[u16; 64]) -> io::Result<()> {
    let mut chart = [0u8; 500];
    put_chart(&mut chart, v[0]);
    sheet_of(rt, &chart, size(v[0]), v[1])
}
