// The next route (document 01): a node's routing table, and where a message for a destination goes from here.
#![tactic(auto)]

ghost use Rattle.std.specs.Prelude.{◌≡◌, false};
ghost use Rattle.lists.specs.Refusals.{unless_refused};
ghost use Rattle.refusal.specs.Numbers.{number_in};
ghost use Rattle.table.specs.Choice.{choice_in};
ghost use Rattle.table.specs.Table.{no_entry, own_station, is_own, choose_of, choice_refusal, choice_local, choice_port, choose_refusal, choose_port};
ghost use Rattle.table.specs.Private.{choice_for, choice_for_refusal};

use address::{Address, LARGEST_PORT, Node, Port, Station};
use entries::out_choice;
use refusal::Refusal;

mod entries;
mod ranges;

pub use entries::qualifies;
pub use ranges::{MOST_ENTRIES, table_in_range};

// The destinations that an entry serves: one node, a whole brigade, or everything.
#[derive(Clone, Copy)]
pub enum Target {
    One(u8, Node),
    Brigade(u8),
    Everything,
}

#[derive(Clone, Copy)]
pub struct Entry {
    pub target: Target,
    pub port: Port,
    pub on: bool,
}

// The own brigade and node, and the entries in order. Those past the count are not looked at. (In this order no gap lies between the fields.)
#[derive(Clone, Copy)]
pub struct Table {
    pub brigade: u8,
    pub count: u8,
    pub node: Node,
    pub entries: [Entry; 32],
}

// For this node at the port, or out by the port.
#[derive(Clone, Copy)]
pub enum Choice {
    Local(Port),
    Out(Port),
}

// What stands at a place without an entry: everything, port 0, off.
pub fn no_entry() -> Entry
    ensures { result ≡ no_entry }
{
    Entry {
        target: Target::Everything,
        port: Port(0),
        on: false,
    }
}

// The station whose table it is.
fn own_station(t: Table) -> Station
    ensures { result ≡ own_station t }
{
    Station {
        brigade: t.brigade,
        node: t.node,
    }
}

// The choice for a table, a destination and a port that were found in range: local, or out, or 52. Only a count past the last place is refused here too, with 50.
pub fn choice_for(table: Table, destination: Address, arrival: Port) -> Result<Choice, Refusal>
    ensures value { choice_in result ≡ choice_for table destination arrival }
    ensures refusal { number_in result ≡ choice_for_refusal table destination arrival }
    ensures local { choice_local (choice_in result) ≡ unless_refused (choice_for_refusal table destination arrival) (is_own table destination) false }
    ensures port { choice_port (choice_in result) ≡ unless_refused (choice_for_refusal table destination arrival) (choose_port table destination arrival) 0 }
    ensures number { choice_refusal (choice_in result) ≡ choice_for_refusal table destination arrival }
{
    if MOST_ENTRIES < table.count {
        return Err(Refusal::BadTable);
    }
    if address::same_station(own_station(table), address::station_of(destination)) {
        return Ok(Choice::Local(destination.port));
    }
    out_choice(table, destination, arrival)
}

// Where a message for the destination goes that came in by the arrival port (0: it began here), or 50, 51 or 52.
pub fn choose(table: Table, destination: Address, arrival: Port) -> Result<Choice, Refusal>
    ensures value { choice_in result ≡ choose_of table destination arrival }
    ensures refusal { number_in result ≡ choose_refusal table destination arrival }
    ensures local { choice_local (choice_in result) ≡ unless_refused (choose_refusal table destination arrival) (is_own table destination) false }
    ensures port { choice_port (choice_in result) ≡ unless_refused (choose_refusal table destination arrival) (choose_port table destination arrival) 0 }
    ensures number { choice_refusal (choice_in result) ≡ choose_refusal table destination arrival }
{
    if !table_in_range(table) {
        return Err(Refusal::BadTable);
    }
    if !(address::in_range(destination) & (arrival.0 <= LARGEST_PORT)) {
        return Err(Refusal::BadDestination);
    }
    choice_for(table, destination, arrival)
}
