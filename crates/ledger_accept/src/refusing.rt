// The refusals of a call where its frame was accepted: 50, 51, 60 to 63.
ghost use Rattle.std.specs.Prelude.{◌≡◌, false, ◌≤◌};
ghost use Rattle.lists.specs.Places.{any_below};
ghost use Rattle.refusal.specs.Numbers.{number_in};
ghost use Rattle.ledger_accept.specs.Accept.{is_open_from, is_open_from_at, legs_refusal, call_refusal};
ghost use Rattle.ledger.specs.Rules.{most_legs};

use address::{Address, LARGEST_PORT, Port, Seq};
use envelope::Fixed;
use ledger::{Ledger, Leg, MOST_LEGS};
use refusal::Refusal;
use table::Table;

// Whether the leg is open, and has this source and this sequence number.
fn is_open_from(g: Leg, source: Address, seq: Seq) -> bool
    ensures { result ≡ is_open_from source seq g }
{
    ledger::is_open(g.standing) & address::same_address(g.source, source) & (g.seq.0 == seq.0)
}

// Whether some leg is open and has this source and this sequence number.
fn any_open_from(l: Ledger, source: Address, seq: Seq) -> bool
    requires { l.count ≤ most_legs }
    ensures { result ≡ any_below (is_open_from_at l source seq) l.count }
{
    for g in &l.legs[..l.count as usize] {
        if is_open_from(*g, source, seq) {
            return true;
        }
    }
    false
}

// Refusals 61 to 63.
fn legs_refusal(l: Ledger, e: Fixed, ticks: u16) -> Result<(), Refusal>
    requires { l.count ≤ most_legs }
    ensures { number_in result ≡ legs_refusal l e ticks }
{
    if ticks == 0 {
        return Err(Refusal::NoTicks);
    }
    if any_open_from(l, e.source, e.seq) {
        return Err(Refusal::BadSeq);
    }
    if MOST_LEGS - l.count < e.count {
        return Err(Refusal::NoPlaces);
    }
    Ok(())
}

// Refusals 50, 51, 60 to 63; the destinations of an accepted frame are in range.
pub fn call_refusal(
    l: Ledger,
    e: Fixed,
    arrival: Port,
    table: Table,
    ticks: u16,
) -> Result<(), Refusal>
    ensures { number_in result ≡ call_refusal l e false arrival table ticks }
{
    if !table::table_in_range(table) {
        return Err(Refusal::BadTable);
    }
    if LARGEST_PORT < arrival.0 {
        return Err(Refusal::BadDestination);
    }
    if !ledger::obeys(l) {
        return Err(Refusal::BadLedger);
    }
    if !e.ack {
        return Ok(());
    }
    legs_refusal(l, e, ticks)
}
