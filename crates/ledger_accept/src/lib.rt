// Accept: a frame, a table and a ledger. The legs of a message that asks for an acknowledgement are added to the ledger, one for each destination.
#![tactic(auto)]

ghost use Rattle.std.specs.Prelude.{◌≡◌};
ghost use Rattle.refusal.specs.Numbers.{AnswersAt};
ghost use Rattle.ledger_accept.specs.Accept.{accept_answer, accept_of};

use adding::with_legs;
use address::Port;
use envelope::DESTINATIONS_OFFSET;
use ledger::Ledger;
use refusal::Fault;
use refusing::call_refusal;
use table::Table;

mod adding;
mod refusing;

// The ledger after the call, and how many legs were added.
#[derive(Clone, Copy)]
pub struct Added {
    pub ledger: Ledger,
    pub added: u8,
}

// Takes a frame that came in by the arrival port: 1 to 9 with the place in the frame, 50, 51, 60, 61, 62, 63 with none.
pub fn accept(
    l: Ledger,
    frame: &[u8],
    arrival: Port,
    table: Table,
    ticks: u16,
) -> Result<Added, Fault>
    ensures value { AnswersAt result (accept_of l frame.now arrival table ticks).refusal (accept_of l frame.now arrival table ticks).place (record { ledger = (accept_of l frame.now arrival table ticks).ledger; added = (accept_of l frame.now arrival table ticks).added }) }
    ensures answer { accept_answer l result ≡ accept_of l frame.now arrival table ticks }
{
    let answer = envelope_read::read_frame(frame);
    let Ok(e) = answer else {
        return answer.and(Ok(Added {
            ledger: l,
            added: 0,
        }));
    };
    if let Err(refusal) = call_refusal(l, e, arrival, table, ticks) {
        return Err(refusal.at(0));
    }
    if !e.ack {
        return Ok(Added {
            ledger: l,
            added: 0,
        });
    }
    let after = with_legs(l, e, &frame[DESTINATIONS_OFFSET..], arrival, table, ticks);
    Ok(Added {
        ledger: after,
        added: e.count,
    })
}
