// What C calls over a ledger (include/poztecameh.h; poztecameh exports them): the ledger that an image stands for answers, and what that gives is put back.
#![tactic(auto)]

ghost use Rattle.std.specs.Prelude.{◌≡◌};
ghost use Rattle.address.specs.Address.{address_of};
ghost use Rattle.ledger_door.specs.Calls.{reply_of, pz_answer, pz_answer_image, pz_tick, pz_tick_image, pz_clear, pz_clear_image, pz_accept, pz_accept_image};

use address::{Address, Node, Port, Seq};
use ledger_answer::Reply;

// Takes a frame that came in by the arrival port; `added` is how many legs were added, `place` where a refused frame is at fault, else 0.
pub fn pz_accept(
    ledger: &mut [u8],
    frame: &[u8],
    arrival: u8,
    table: &[u8],
    ticks: u16,
    added: &mut u8,
    place: &mut u16,
) -> u8
    ensures { (result ≡ (pz_accept ledger.old frame.now (record { 0 = arrival }) table.now ticks).refusal) × (added.new ≡ (pz_accept ledger.old frame.now (record { 0 = arrival }) table.now ticks).added) × (place.new ≡ (pz_accept ledger.old frame.now (record { 0 = arrival }) table.now ticks).place) × (ledger.new ≡ pz_accept_image ledger.old frame.now (record { 0 = arrival }) table.now ticks) }
{
    *added = 0;
    *place = 0;
    let t = table_image::table_of(table);
    let l = ledger_image::ledger_of(ledger);
    match ledger_accept::accept(l, frame, Port(arrival), t, ticks) {
        Ok(after) => {
            *added = after.added;
            ledger_image::put_back(ledger, Ok(()), after.ledger, after.ledger.count)
        }
        Err(fault) => {
            *place = fault.place as u16;
            ledger_image::put_back(ledger, Err(fault.refusal), l, l.count)
        }
    }
}

// The reply that three numbers of a call stand for.
fn reply_of(nak: u8, set: u8, code: u8) -> Reply
    ensures { result ≡ reply_of nak set code }
{
    if nak == 0 {
        return Reply::Ack;
    }
    Reply::Nak(set, code)
}

// Settles the open leg that an answer names.
pub fn pz_answer(
    ledger: &mut [u8],
    by_brigade: u8,
    by_node: u16,
    by_port: u8,
    to_brigade: u8,
    to_node: u16,
    to_port: u8,
    seq: u16,
    nak: u8,
    set: u8,
    code: u8,
) -> u8
    ensures { (result ≡ (pz_answer ledger.old (address_of by_brigade by_node by_port) (address_of to_brigade to_node to_port) (record { 0 = seq }) (reply_of nak set code)).refusal) × (ledger.new ≡ pz_answer_image ledger.old (address_of by_brigade by_node by_port) (address_of to_brigade to_node to_port) (record { 0 = seq }) (reply_of nak set code)) }
{
    let l = ledger_image::ledger_of(ledger);
    let by = Address {
        brigade: by_brigade,
        node: Node(by_node),
        port: Port(by_port),
    };
    let to = Address {
        brigade: to_brigade,
        node: Node(to_node),
        port: Port(to_port),
    };
    let reply = reply_of(nak, set, code);
    match ledger_answer::answer(l, by, to, Seq(seq), reply) {
        Ok(m) => ledger_image::put_back(ledger, Ok(()), m, l.count),
        Err(refusal) => ledger_image::put_back(ledger, Err(refusal), l, l.count),
    }
}

// One tick for every leg; `ended` is how many timed out.
pub fn pz_tick(ledger: &mut [u8], ended: &mut u8) -> u8
    ensures { (result ≡ (pz_tick ledger.old).refusal) × (ended.new ≡ (pz_tick ledger.old).ended) × (ledger.new ≡ pz_tick_image ledger.old) }
{
    *ended = 0;
    let l = ledger_image::ledger_of(ledger);
    match ledger_tick::tick(l) {
        Ok(after) => {
            *ended = after.ended;
            ledger_image::put_back(ledger, Ok(()), after.ledger, l.count)
        }
        Err(refusal) => ledger_image::put_back(ledger, Err(refusal), l, l.count),
    }
}

// Removes the settled leg at a place.
pub fn pz_clear(ledger: &mut [u8], place: usize) -> u8
    ensures { (result ≡ (pz_clear ledger.old place).refusal) × (ledger.new ≡ pz_clear_image ledger.old place) }
{
    let l = ledger_image::ledger_of(ledger);
    match ledger_clear::clear(l, place) {
        Ok(m) => ledger_image::put_back(ledger, Ok(()), m, l.count),
        Err(refusal) => ledger_image::put_back(ledger, Err(refusal), l, l.count),
    }
}
