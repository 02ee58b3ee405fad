// What C calls over a ledger.

ghost use Rattle.std.specs.Prelude.{◌≡◌};
ghost use Rattle.address.specs.Address.{address_of};
ghost use Rattle.ledger_door.specs.Calls.{pz_accept, pz_accept_image, reply_of, pz_answer, pz_answer_image, pz_tick, pz_tick_image, pz_clear, pz_clear_image};

// Takes a frame that came in by the arrival port; `added` is how many legs were added, `place` where a refused frame is at fault, else 0.
#[unsafe(no_mangle)]
pub extern "C" fn pz_accept(
    ledger: &mut [u8],
    frame: &[u8],
    arrival: u8,
    table: &[u8],
    ticks: u16,
    added: &mut u8,
    place: &mut u16,
) -> u8
    ensures { (result ≡ (pz_accept ledger.old frame.now (record { 0 = arrival }) table.now ticks).refusal) × (added.new ≡ (pz_accept ledger.old frame.now (record { 0 = arrival }) table.now ticks).added) × (place.new ≡ (pz_accept ledger.old frame.now (record { 0 = arrival }) table.now ticks).place) × (ledger.new ≡ pz_accept_image ledger.old frame.now (record { 0 = arrival }) table.now ticks) }
{
    ledger_door::pz_accept(ledger, frame, arrival, table, ticks, added, place)
}

// Settles the open leg that an answer names.
#[unsafe(no_mangle)]
pub extern "C" fn pz_answer(
    ledger: &mut [u8],
    by_brigade: u8,
    by_node: u16,
    by_port: u8,
    to_brigade: u8,
    to_node: u16,
    to_port: u8,
    seq: u16,
    nak: u8,
    set: u8,
    code: u8,
) -> u8
    ensures { (result ≡ (pz_answer ledger.old (address_of by_brigade by_node by_port) (address_of to_brigade to_node to_port) (record { 0 = seq }) (reply_of nak set code)).refusal) × (ledger.new ≡ pz_answer_image ledger.old (address_of by_brigade by_node by_port) (address_of to_brigade to_node to_port) (record { 0 = seq }) (reply_of nak set code)) }
{
    ledger_door::pz_answer(
        ledger, by_brigade, by_node, by_port, to_brigade, to_node, to_port, seq, nak, set, code,
    )
}

// One tick for every leg; `ended` is how many timed out.
#[unsafe(no_mangle)]
pub extern "C" fn pz_tick(ledger: &mut [u8], ended: &mut u8) -> u8
    ensures { (result ≡ (pz_tick ledger.old).refusal) × (ended.new ≡ (pz_tick ledger.old).ended) × (ledger.new ≡ pz_tick_image ledger.old) }
{
    ledger_door::pz_tick(ledger, ended)
}

// Removes the settled leg at a place.
#[unsafe(no_mangle)]
pub extern "C" fn pz_clear(ledger: &mut [u8], place: usize) -> u8
    ensures { (result ≡ (pz_clear ledger.old place).refusal) × (ledger.new ≡ pz_clear_image ledger.old place) }
{
    ledger_door::pz_clear(ledger, place)
}
