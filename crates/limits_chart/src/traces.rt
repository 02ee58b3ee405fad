// The routes of a chart: a ring of nodes.
use crate::answers::answered;
use crate::charts::{Shape, built_chart};
use chart::Chart;
use limits_script::{byte, taken};
use refusal::Refusal;
use std::io;

// The number, the route's length, and the buffer's first byte.
fn report(rt: &impl Print, answer: Result<u8, Refusal>, buf: &[u8; 64]) -> io::Result<()> {
    let first = buf[0] as u64;
    match answer {
        Ok(n) => answered(rt, 0, n as u64, first),
        Err(refusal) => answered(rt, refusal.number(), 0, first),
    }
}

// The chart of a line.
fn asked_chart(v: &[u16; 64]) -> Chart {
    built_chart(Shape {
        nodes: v[0],
        links: v[1],
        label: 0,
        to: v[2],
    })
}

// The first route, in a buffer of 99s of which so many bytes are lent.
fn first_in(rt: &impl Print, c: Chart, room: u16) -> io::Result<()> {
    let mut buf = [99u8; 64];
    let n = taken(room, &buf);
    let answer = route_trace::first(c, &mut buf[..n]);
    report(rt, answer, &buf)
}

// 1 nodes links to room: number, length, first byte
pub fn first(rt: &impl Print, v: &[u16; 64]) -> io::Result<()> {
    first_in(rt, asked_chart(v), v[3])
}

// The bytes begin, begin + 1 and so on.
fn counting(begin: u16) -> [u8; 64] {
    let mut all = [0u8; 64];
    for (i, b) in all.iter_mut().enumerate() {
        *b = byte(begin % 256 + i as u16);
    }
    all
}

// The route after the given one, in a buffer that counts up.
fn next_in(rt: &impl Print, c: Chart, given: u16, begin: u16, room: u16) -> io::Result<()> {
    let mut buf = counting(begin);
    let n = taken(room, &buf);
    let answer = route_trace::next(c, &mut buf[..n], given as usize);
    report(rt, answer, &buf)
}

// 2 nodes links to room given begin: number, length, first byte. The buffer holds begin, begin + 1 and so on.
pub fn next(rt: &impl Print, v: &[u16; 64]) -> io::Result<()> {
    next_in(rt, asked_chart(v), v[4], v[5], v[3])
}
