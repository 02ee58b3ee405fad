// The legs of a message, one for each destination.
ghost use Rattle.std.specs.Prelude.{◌≡◌, true, ◌+◌, ◌≤◌};
ghost use Rattle.envelope.specs.Frame.{destination_at};
ghost use Rattle.table.specs.Choice.{choice_in};
ghost use Rattle.table.specs.Table.{table_in_range, call_in_range};
ghost use Rattle.ledger_accept.specs.Accept.{is_unrouted, leg_for, with_legs};
ghost use Rattle.address.specs.Address.{largest_port};
ghost use Rattle.ledger.specs.Rules.{most_legs};

use address::{Address, Port};
use address_bytes::PACKED_SIZE;
use envelope::Fixed;
use ledger::{Ledger, Leg, Standing};
use refusal::Refusal;
use table::{Choice, Table};

// Whether a choice says that there is no route.
fn is_unrouted(c: Result<Choice, Refusal>) -> bool
    ensures { result ≡ is_unrouted (choice_in c) }
{
    matches!(c, Err(Refusal::NoEntry))
}

// The leg for a destination; table, port and destination were found in range.
fn leg_for(e: Fixed, arrival: Port, table: Table, ticks: u16, destination: Address) -> Leg
    requires { (table_in_range table ≡ true) × (call_in_range destination arrival ≡ true) }
    ensures { result ≡ leg_for e arrival table ticks destination }
{
    let open = Leg {
        source: e.source,
        destination,
        seq: e.seq,
        ticks,
        standing: Standing::Open,
    };
    if is_unrouted(table::choice_for(table, destination, arrival)) {
        return Leg {
            ticks: 0,
            standing: Standing::Undeliverable,
            ..open
        };
    }
    open
}

// The ledger with a leg for each destination of the part of a frame that begins with them.
pub fn with_legs(
    l: Ledger,
    e: Fixed,
    part: &[u8],
    arrival: Port,
    table: Table,
    ticks: u16,
) -> Ledger
    requires { (l.count + e.count ≤ most_legs) × (table_in_range table ≡ true) × (arrival.0 ≤ largest_port) }
    ensures { result ≡ with_legs l e (destination_at part.now) arrival table ticks }
{
    let base = l.count as usize;
    let mut m = l;
    for i in 0..e.count as usize {
        let d = address_bytes::packed_in(part, PACKED_SIZE * i);
        m.legs[base + i] = leg_for(e, arrival, table, ticks, d);
    }
    m.count = l.count + e.count;
    m
}
