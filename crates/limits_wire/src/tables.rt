// The next route.
use crate::answers::answered;
use crate::frames::at;
use address::{Node, Port};
use limits_script::byte;
use refusal::Refusal;
use std::io;
use table::{Choice, Entry, Table, Target};

// What an entry of brigade 9 is for: 0 a node, 1 the brigade, else everything.
fn target(kind: u16, node: u16) -> Target {
    match kind {
        0 => Target::One(9, Node(node)),
        1 => Target::Brigade(9),
        _ => Target::Everything,
    }
}

// A table of brigade 9 with one entry at a place; the others are off.
pub fn table(node: u16, count: u16, place: u16, entry: Entry) -> Table {
    let other = Entry {
        target: Target::Everything,
        port: Port(1),
        on: false,
    };
    let mut entries = [other; 32];
    entries[(place % 32) as usize] = entry;
    Table {
        brigade: 9,
        node: Node(node),
        count: byte(count),
        entries,
    }
}

// An entry, on where the last number is 1.
pub fn entry(target: Target, port: u16, on: u16) -> Entry {
    Entry {
        target,
        port: Port(byte(port)),
        on: on == 1,
    }
}

// The number, 1 where it is local, and the port.
fn report(rt: &impl Print, choice: Result<Choice, Refusal>) -> io::Result<()> {
    match choice {
        Ok(Choice::Local(p)) => answered(rt, 0, 1, p.0 as u64),
        Ok(Choice::Out(p)) => answered(rt, 0, 0, p.0 as u64),
        Err(refusal) => answered(rt, refusal.number(), 0, 0),
    }
}

// The table of a `t` line.
fn asked_table(v: &[u16; 64]) -> Table {
    table(v[0], v[1], v[2], entry(target(v[3], v[4]), v[5], v[6]))
}

// t own-node entries place kind entry-node out-port on to-brigade to-node to-port arrival: number, 1 where local, port
pub fn choose(rt: &impl Print, v: &[u16; 64]) -> io::Result<()> {
    let to = at(v[7], v[8], v[9]);
    let arrival = Port(byte(v[10]));
    report(rt, table::choose(asked_table(v), to, arrival))
}
