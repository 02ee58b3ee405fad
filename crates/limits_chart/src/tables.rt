// The routing table of a node, written from a chart.
use crate::answers::answered;
use crate::charts::{Shape, built, station};
use refusal::Refusal;
use std::io;
use table::{MOST_ENTRIES, Table};

// The out port of the last entry.
fn last_port(t: Table) -> u64 {
    let n = t.count as usize;
    if (n == 0) | (MOST_ENTRIES < t.count) {
        return 0;
    }
    t.entries[n - 1].port.0 as u64
}

// The number, how many entries, and the last one's port.
fn report(rt: &impl Print, answer: Result<Table, Refusal>) -> io::Result<()> {
    match answer {
        Ok(t) => answered(rt, 0, t.count as u64, last_port(t)),
        Err(refusal) => answered(rt, refusal.number(), 0, 0),
    }
}

// The table of 9/node, of the chart that is built, if it is one.
fn written(s: Shape, node: u16) -> Result<Table, Refusal> {
    table_write::write_table(built(s)?, station(node))
}

// T nodes links node: number, entries, the last entry's port
pub fn write(rt: &impl Print, v: &[u16; 64]) -> io::Result<()> {
    let s = Shape {
        nodes: v[0],
        links: v[1],
        label: 0,
        to: 1,
    };
    report(rt, written(s, v[2]))
}
