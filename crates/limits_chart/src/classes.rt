// Messages passed over a chart of C, by tables that send everything out by one port.
use crate::answers::answered;
use crate::charts::{Shape, put_built, station};
use address::{Address, Node, Port};
use class::{Message, Passed};
use limits_script::{byte, taken};
use refusal::Fault;
use std::io;
use table::{Entry, Table, Target};

// The table of 9/node with so many entries, each everything out by a port.
fn table_of(node: u16, count: u16, port: u16) -> Table {
    let e = Entry {
        target: Target::Everything,
        port: Port(byte(port)),
        on: true,
    };
    Table {
        brigade: 9,
        count: byte(count),
        node: Node(node),
        entries: [e; 32],
    }
}

// A table stored at a place of the tables' image.
fn put_at(tables: &mut [u8; 3200], place: u16, t: Table) {
    let mut image = [0u8; 196];
    table_image::put_table(&mut image, t);
    buffer::put_all(tables, 196 * place as usize, &image);
}

// The tables of 9/0 to 9/15, each with one entry.
fn sending(port: u16) -> [u8; 3200] {
    let mut tables = [0u8; 3200];
    for i in 0..16u16 {
        put_at(&mut tables, i, table_of(i, 1, port));
    }
    tables
}

fn to(node: u16, port: u16) -> Address {
    Address {
        brigade: 9,
        node: Node(node),
        port: Port(byte(port)),
    }
}

// What a message comes to over the chart in the first n of 2,000 bytes, by so many bytes of tables.
fn passed(
    chart: &[u8; 2000],
    n: u16,
    tables: &[u8; 3200],
    size: u16,
    v: &[u16; 64],
) -> Result<Passed, Fault> {
    let long = taken(n, chart);
    let many = taken(size, tables);
    class::pass(
        &chart[..long],
        &tables[..many],
        station(v[7]),
        to(v[8], v[9]),
    )
}

// The chart of a line that begins with nodes and links.
fn asked(v: &[u16; 64]) -> Shape {
    Shape {
        nodes: v[0],
        links: v[1],
        label: 0,
        to: 0,
    }
}

// The number, how many nodes it passed, and how it ended.
fn report(rt: &impl Print, answer: Result<Passed, Fault>) -> io::Result<()> {
    match answer {
        Ok(p) => answered(rt, 0, p.count as u64, p.ending as u64),
        Err(fault) => answered(rt, fault.refusal.number(), 0, 0),
    }
}

// p nodes links bytes port place entries own from to-node to-port: number, nodes on the way, ending
pub fn pass(rt: &impl Print, v: &[u16; 64]) -> io::Result<()> {
    let mut chart = [b'a'; 2000];
    let n = put_built(&mut chart, asked(v));
    let mut tables = sending(v[3]);
    put_at(&mut tables, v[4], table_of(v[6], v[5], v[3]));
    report(rt, passed(&chart, n, &tables, v[2], v))
}

// A message a step on, likewise.
fn stepped(
    chart: &[u8; 2000],
    n: u16,
    tables: &[u8; 3200],
    node: u16,
    m: Message,
) -> Result<Message, Fault> {
    let long = taken(n, chart);
    class::step(&chart[..long], tables, to(node, 1), m)
}

// The number, and the message's place and ending: beside a refusal as it was.
fn report_step(rt: &impl Print, before: Message, answer: Result<Message, Fault>) -> io::Result<()> {
    match answer {
        Ok(m) => answered(rt, 0, m.at as u64, m.ending as u64),
        Err(fault) => {
            let number = fault.refusal.number();
            answered(rt, number, before.at as u64, before.ending as u64)
        }
    }
}

// q nodes links port place arrival met ending to-node: number, place, ending after it
pub fn step(rt: &impl Print, v: &[u16; 64]) -> io::Result<()> {
    let mut chart = [b'a'; 2000];
    let n = put_built(&mut chart, asked(v));
    let tables = sending(v[2]);
    let m = Message {
        at: byte(v[3]),
        arrival: Port(byte(v[4])),
        met: v[5],
        ending: byte(v[6]),
    };
    report_step(rt, m, stepped(&chart, n, &tables, v[7], m))
}
