// The ledger of legs. Each call's numbers begin with a ledger: legs standing ticks sequence step.
use crate::answers::{answered, value};
use crate::frames::{address, at, written};
use crate::tables::{entry, table};
use address::{Address, Port, Seq};
use ledger::{Ledger, Leg, Standing};
use ledger_accept::Added;
use ledger_answer::Reply;
use ledger_tick::Ticked;
use limits_script::{byte, taken};
use refusal::{Fault, Refusal};
use std::io;
use table::{Table, Target};

// A standing by its number: 0 open, 1 acknowledged, 2 refused, 3 undeliverable, 4 timed out, else waiting.
fn standing(n: u16) -> Standing {
    match n {
        0 => Standing::Open,
        1 => Standing::Acknowledged,
        2 => Standing::Refused(0, 0),
        3 => Standing::Undeliverable,
        4 => Standing::TimedOut,
        _ => Standing::Waiting,
    }
}

// The number of a standing; beside 2 for refused the reason set in thousands and the code in millions.
fn standing_number(s: Standing) -> u64 {
    match s {
        Standing::Open => 0,
        Standing::Acknowledged => 1,
        Standing::Refused(set, code) => 2 + 1000 * (set as u64) + 1000000 * (code as u64),
        Standing::Undeliverable => 3,
        Standing::TimedOut => 4,
        Standing::Waiting => 5,
    }
}

// The sequence number that many steps on.
fn later(s: Seq, step: u16) -> Seq {
    Seq(s.0.wrapping_add(step))
}

// A row of legs: each sequence number is `step` above the one before.
fn row(first: Leg, step: u16) -> [Leg; 128] {
    let mut leg = first;
    let mut all = [leg; 128];
    for place in &mut all {
        *place = leg;
        leg.seq = later(leg.seq, step);
    }
    all
}

// The first leg of a call's first five numbers.
fn leg(v: &[u16; 64], source: Address, destination: Address) -> Leg {
    Leg {
        source,
        destination,
        seq: Seq(v[3]),
        ticks: v[2],
        standing: standing(v[1]),
    }
}

// The ledger of a call's first five numbers, its legs between two addresses.
fn ledger(v: &[u16; 64], source: Address, destination: Address) -> Ledger {
    let legs = row(leg(v, source, destination), v[4]);
    Ledger {
        count: byte(v[0]),
        legs,
    }
}

// The leg at a place of 128.
fn leg_at(l: Ledger, place: usize) -> Leg {
    l.legs[place % 128]
}

// The number of the standing of a leg.
fn standing_at(l: Ledger, place: usize) -> u64 {
    standing_number(leg_at(l, place).standing)
}

// The standings of the legs from a place up to another.
fn print_standings(rt: &impl Print, l: Ledger, from: u8, to: u8) -> io::Result<()> {
    for i in from..to {
        value(rt, standing_at(l, i as usize))?;
    }
    Ok(())
}

// The ledger as it was.
fn none_added(ledger: Ledger) -> Added {
    Added { ledger, added: 0 }
}

// The number, how many legs were added, the last leg's ticks, and the standing of each that was added.
fn report(rt: &impl Print, before: Ledger, answer: Result<Added, Fault>) -> io::Result<()> {
    let (number, after) = match answer {
        Ok(after) => (0, after),
        Err(fault) => (fault.refusal.number(), none_added(before)),
    };
    let l = after.ledger;
    let last = leg_at(l, 127 + l.count as usize);
    answered(rt, number, after.added as u64, last.ticks as u64)?;
    print_standings(rt, l, l.count.saturating_sub(after.added), l.count)
}

// Accepts the frame in the first n of 2,000 bytes.
fn accepted(
    before: Ledger,
    frame: [u8; 2000],
    n: u16,
    arrival: u16,
    t: Table,
    ticks: u16,
) -> Result<Added, Fault> {
    let n = taken(n, &frame);
    ledger_accept::accept(before, &frame[..n], Port(byte(arrival)), t, ticks)
}

// The table with one entry, for everything, of an `a` line.
fn asked_table(v: &[u16; 64]) -> Table {
    table(v[18], 1, 0, entry(Target::Everything, 2, v[17]))
}

// The frame of an `a` line.
fn asked_frame(v: &[u16; 64]) -> [u8; 2000] {
    written(at(v[10], v[11], v[12]), v[13], 0, v[14] == 1, 7)
}

// How many bytes it has.
fn size(destinations: u16) -> u16 {
    10 + 3 * (destinations % 64)
}

// a ledger brigade node port to-node to-port frame-brigade frame-node frame-port destinations ack ticks arrival on own-node: number, legs added, the last
// leg's ticks after it, then the standing of each leg added. The ledger's legs are from brigade/node/port to 9/to-node/to-port; the frame is from
// frame-brigade/frame-node/frame-port with sequence number 7; the table has one entry, for everything.
pub fn accept(rt: &impl Print, v: &[u16; 64]) -> io::Result<()> {
    let before = ledger(v, at(v[5], v[6], v[7]), address(v, 8));
    let after = accepted(
        before,
        asked_frame(v),
        size(v[13]),
        v[16],
        asked_table(v),
        v[15],
    );
    report(rt, before, after)
}

// The number, how many legs timed out, and the first leg's ticks.
fn report_tick(rt: &impl Print, before: Ledger, answer: Result<Ticked, Refusal>) -> io::Result<()> {
    match answer {
        Ok(after) => {
            let first = leg_at(after.ledger, 0);
            answered(rt, 0, after.ended as u64, first.ticks as u64)
        }
        Err(refusal) => answered(rt, refusal.number(), 0, leg_at(before, 0).ticks as u64),
    }
}

// l ledger node port to-node to-port: number, legs timed out, the first leg's ticks after it
pub fn tick(rt: &impl Print, v: &[u16; 64]) -> io::Result<()> {
    let before = ledger(v, address(v, 5), address(v, 7));
    report_tick(rt, before, ledger_tick::tick(before))
}

// An acknowledgement, or a refusal with its reason set and code.
fn reply(nak: u16, set: u16, code: u16) -> Reply {
    if nak == 0 {
        Reply::Ack
    } else {
        Reply::Nak(byte(set), byte(code))
    }
}

// The reply of an `n` line.
fn asked_reply(v: &[u16; 64]) -> Reply {
    reply(v[10], v[11], v[12])
}

// The number, and the ledger after a call: beside a refusal as it was.
fn outcome(before: Ledger, answer: Result<Ledger, Refusal>) -> (u8, Ledger) {
    match answer {
        Ok(after) => (0, after),
        Err(refusal) => (refusal.number(), before),
    }
}

// The number, and the first leg's standing and ticks.
fn report_answer(
    rt: &impl Print,
    before: Ledger,
    answer: Result<Ledger, Refusal>,
) -> io::Result<()> {
    let (number, l) = outcome(before, answer);
    let first = leg_at(l, 0);
    answered(
        rt,
        number,
        standing_number(first.standing),
        first.ticks as u64,
    )
}

// n ledger by-node by-port to-node to-port sequence nak set code: number, the first leg's standing, its ticks after it. Its legs are from 9/1/5 to 9/20/1.
pub fn answer(rt: &impl Print, v: &[u16; 64]) -> io::Result<()> {
    let before = ledger(v, at(9, 1, 5), at(9, 20, 1));
    let after = ledger_answer::answer(
        before,
        address(v, 5),
        address(v, 7),
        Seq(v[9]),
        asked_reply(v),
    );
    report_answer(rt, before, after)
}

// The number, how many legs, and the first leg's sequence number.
fn report_clear(
    rt: &impl Print,
    before: Ledger,
    answer: Result<Ledger, Refusal>,
) -> io::Result<()> {
    let (number, l) = outcome(before, answer);
    answered(rt, number, l.count as u64, leg_at(l, 0).seq.0 as u64)
}

// k ledger place: number, legs left, the first leg's sequence number
pub fn clear(rt: &impl Print, v: &[u16; 64]) -> io::Result<()> {
    let before = ledger(v, at(9, 1, 5), at(9, 20, 1));
    report_clear(rt, before, ledger_clear::clear(before, v[5] as usize))
}
