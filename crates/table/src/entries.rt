// The entry by which a message leaves.
ghost use Rattle.std.specs.Prelude.{◌≡◌, ◌≤◌};
ghost use Rattle.table.specs.Choice.{choice_in};
ghost use Rattle.table.specs.Table.{most_entries, covers, qualifies, out_choice};

use crate::{Choice, Entry, Table, Target};
use address::{Address, Port, Station};
use refusal::Refusal;

// Whether the target takes in the destination.
fn covers(g: Target, d: Address) -> bool
    ensures { result ≡ covers g d }
{
    match g {
        Target::One(brigade, node) => {
            address::same_station(Station { brigade, node }, address::station_of(d))
        }
        Target::Brigade(b) => b == d.brigade,
        Target::Everything => true,
    }
}

// Whether the entry is on, does not leave by the arrival port, and takes in the destination.
pub fn qualifies(e: Entry, d: Address, arrival: Port) -> bool
    ensures { result ≡ qualifies d arrival e }
{
    e.on & (e.port.0 != arrival.0) & covers(e.target, d)
}

// Out by the first entry that qualifies, or 52.
pub fn out_choice(t: Table, d: Address, arrival: Port) -> Result<Choice, Refusal>
    requires { t.count ≤ most_entries }
    ensures { choice_in result ≡ out_choice t d arrival }
{
    for e in &t.entries[..t.count as usize] {
        if qualifies(*e, d, arrival) {
            return Ok(Choice::Out(e.port));
        }
    }
    Err(Refusal::NoEntry)
}
