// Damaged charts, mended.
use crate::answers::answered;
use crate::charts::{Shape, put_built};
use chart_mend::MendedSizes;
use limits_script::{bytes, taken};
use refusal::Refusal;
use std::io;

// The number, how many bytes are kept, and how many listed.
fn report(rt: &impl Print, answer: Result<MendedSizes, Refusal>) -> io::Result<()> {
    match answer {
        Ok(m) => answered(rt, 0, m.kept as u64, m.listed as u64),
        Err(refusal) => answered(rt, refusal.number(), 0, 0),
    }
}

// m length, then the chart's bytes: number, bytes kept, bytes listed
pub fn mend(rt: &impl Print, v: &[u16; 64]) -> io::Result<()> {
    let input = bytes(v);
    let n = taken(v[0], &input);
    let mut out = [0u8; 63];
    let mut list = [0u8; 63];
    report(rt, chart_mend::mend(&input[..n], &mut out, &mut list))
}

// The chart in the first n of 2,000 bytes, before zeros.
fn put_start(input: &mut [u8; 65536], chart: &[u8; 2000], n: u16) {
    let long = taken(n, chart);
    buffer::put_all(input, 0, &chart[..long]);
}

// An input mended, into buffers of a length.
fn mend_in(rt: &impl Print, input: &[u8], room: u16, list_room: u16) -> io::Result<()> {
    let mut out = [0u8; 65536];
    let m = taken(room, &out);
    let mut list = [0u8; 65536];
    let k = taken(list_room, &list);
    report(rt, chart_mend::mend(input, &mut out[..m], &mut list[..k]))
}

// M nodes links label zeros room list: number, bytes kept, bytes listed
pub fn mend_built(rt: &impl Print, v: &[u16; 64]) -> io::Result<()> {
    let mut chart = [b'a'; 2000];
    let built = Shape {
        nodes: v[0],
        links: v[1],
        label: v[2],
        to: 0,
    };
    let n = put_built(&mut chart, built);
    let mut input = [0u8; 65536];
    put_start(&mut input, &chart, n);
    let long = input.len().min(n as usize + v[3] as usize);
    mend_in(rt, &input[..long], v[4], v[5])
}
