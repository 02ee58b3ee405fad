// Frames, written and read.
use crate::answers::{answered, value};
use address::{Address, Node, Port, Seq};
use envelope::Fixed;
use envelope_read::Destinations;
use limits_script::{byte, bytes, taken};
use refusal::Refusal;
use std::io;

pub fn at(brigade: u16, node: u16, port: u16) -> Address {
    Address {
        brigade: byte(brigade),
        node: Node(node),
        port: Port(byte(port)),
    }
}

// The address of brigade 9 whose node and port stand at a place of the line's numbers.
pub fn address(v: &[u16; 64], place: usize) -> Address {
    at(9, v[place % 64], v[(place % 64 + 1) % 64])
}

// 63 destinations, all different: 9/20/1, 9/21/1 and so on.
fn places() -> [Address; 63] {
    let mut all = [at(9, 20, 1); 63];
    for (i, a) in all.iter_mut().enumerate() {
        *a = at(9, 20 + i as u16, 1);
    }
    all
}

// The fixed fields of a `w` line.
fn fixed(v: &[u16; 64]) -> Fixed {
    Fixed {
        source: address(v, 5),
        count: byte(v[0]),
        length: 0,
        priority: byte(v[2]),
        version: byte(v[3]),
        ack: true,
        seq: Seq(v[7]),
        kind: byte(v[4]),
    }
}

// 63 destinations, of which the first is given.
fn with_first(first: Address) -> [Address; 63] {
    let mut to = places();
    to[0] = first;
    to
}

// Writes with contents of a length into a buffer of a length.
fn written_into(e: Fixed, to: [Address; 63], length: u16, room: u16) -> Result<usize, Refusal> {
    let contents = [0u8; 1024];
    let mut out = [0u8; 1222];
    let n = taken(length, &contents);
    let m = taken(room, &out);
    envelope_write::write_frame(e, to, &contents[..n], &mut out[..m])
}

// What a writer answers: the number and how many bytes.
fn report_written(rt: &impl Print, answer: Result<usize, Refusal>) -> io::Result<()> {
    match answer {
        Ok(n) => answered(rt, 0, n as u64, 0),
        Err(refusal) => answered(rt, refusal.number(), 0, 0),
    }
}

// w destinations contents priority version type node port sequence to-node to-port room: number, bytes, 0. The destinations after the first are 9/21/1,
// 9/22/1 and so on.
pub fn write(rt: &impl Print, v: &[u16; 64]) -> io::Result<()> {
    report_written(
        rt,
        written_into(fixed(v), with_first(address(v, 8)), v[1], v[10]),
    )
}

// An address: brigade, node, port.
fn print_address(rt: &impl Print, a: Address) -> io::Result<()> {
    value(rt, a.brigade as u64)?;
    value(rt, a.node.0 as u64)?;
    value(rt, a.port.0 as u64)
}

// The fixed fields, in the order in which they are declared.
fn print_fields(rt: &impl Print, e: Fixed) -> io::Result<()> {
    print_address(rt, e.source)?;
    value(rt, e.count as u64)?;
    value(rt, e.length as u64)?;
    value(rt, e.priority as u64)?;
    value(rt, e.version as u64)?;
    value(rt, e.ack as u64)?;
    value(rt, e.seq.0 as u64)?;
    value(rt, e.kind as u64)
}

// The last of the destinations.
fn last(to: Destinations) -> Address {
    to.addresses[(to.count as usize + 62) % 63]
}

// What a frame is read as: the number, how many destinations, how many bytes of contents; of an envelope also its fixed fields and its last destination, of a
// refused frame the place.
fn report(rt: &impl Print, frame: &[u8]) -> io::Result<()> {
    let to = envelope_read::destinations_of(frame);
    let contents = envelope_read::contents_of(frame);
    match envelope_read::read_frame(frame) {
        Ok(e) => {
            answered(rt, 0, to.count as u64, contents.len() as u64)?;
            print_fields(rt, e)?;
            print_address(rt, last(to))
        }
        Err(fault) => {
            let number = fault.refusal.number();
            answered(rt, number, to.count as u64, contents.len() as u64)?;
            value(rt, fault.place as u64)
        }
    }
}

// f length, then the frame's bytes: number, destinations, contents; of a refused frame then the place; where the number is 0 then the source's brigade, node and port, count, length,
// priority, version, ack, sequence number and type, and the last destination's brigade, node and port
pub fn read(rt: &impl Print, v: &[u16; 64]) -> io::Result<()> {
    let frame = bytes(v);
    let n = taken(v[0], &frame);
    report(rt, &frame[..n])
}

// A frame of priority 1 and type 2, at the start of 2,000 bytes.
pub fn written(
    source: Address,
    destinations: u16,
    contents: u16,
    ack: bool,
    seq: u16,
) -> [u8; 2000] {
    let e = Fixed {
        source,
        count: byte(destinations),
        length: 0,
        priority: 1,
        version: 1,
        ack,
        seq: Seq(seq),
        kind: 2,
    };
    let part = [0u8; 1024];
    let n = taken(contents, &part);
    let mut out = [0u8; 2000];
    let _ = envelope_write::write_frame(e, places(), &part[..n], &mut out);
    out
}

// F destinations contents length ack sequence: as f. The frame is from 9/1/5.
pub fn read_written(rt: &impl Print, v: &[u16; 64]) -> io::Result<()> {
    let frame = written(at(9, 1, 5), v[0], v[1], v[3] == 1, v[4]);
    let n = taken(v[2], &frame);
    report(rt, &frame[..n])
}
