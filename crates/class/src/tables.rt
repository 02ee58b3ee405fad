// The 16 tables of a class as one image, 196 bytes each.
ghost use Rattle.std.specs.Prelude.{◌≡◌, true, ◌<◌, ◌≤◌, length};
ghost use Rattle.table.specs.Table.{own_station, table_in_range, choose_of};
ghost use Rattle.table.specs.Choice.{choice_in};
ghost use Rattle.chart.specs.Values.{most_nodes};
ghost use Rattle.class.specs.Calls.{tables_size, tables_in};

use address::{Address, Node, Port, Station};
use refusal::Refusal;
use table::Choice;
use table_image::TABLE_SIZE;

pub const TABLES_SIZE: usize = 3136;

// What the node at a place chooses, or what refuses it.
pub fn choice_of(tables: &[u8], at: usize, d: Address, arrival: Port) -> Result<Choice, Refusal>
    requires whole { tables_size ≤ length tables.now }
    requires within { at < most_nodes }
    ensures { choice_in result ≡ choose_of (tables_in tables.now at) d arrival }
{
    table_image::choose_in(&tables[TABLE_SIZE * at..], d, arrival)
}

// The own station of its table, which was found in range.
pub fn own_held(tables: &[u8], at: usize) -> Station
    requires within { at < most_nodes }
    requires ranged { table_in_range (tables_in tables.now at) ≡ true }
    ensures { result ≡ own_station (tables_in tables.now at) }
{
    let start = TABLE_SIZE * at;
    Station {
        brigade: buffer::byte_at(tables, start),
        node: Node(buffer::word_at(tables, start + 1)),
    }
}
