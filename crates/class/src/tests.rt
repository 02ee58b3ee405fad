// The refusals of a class, of a chart that was read: 50, 44, 95 and 51.
ghost use Rattle.std.specs.Prelude.{◌≡◌, false, ◌≤◌};
ghost use Rattle.lists.specs.Places.{any_below};
ghost use Rattle.refusal.specs.Numbers.{number_in};
ghost use Rattle.chart.specs.Values.{most_nodes};
ghost use Rattle.class.specs.Class.{stray_table, strange_table, class_refusal};
ghost use Rattle.class.specs.Calls.{tables_in};

use crate::tables::{TABLES_SIZE, own_held};
use address::{Address, LARGEST_PORT, Port};
use chart::Nodes;
use refusal::Refusal;
use table_image::TABLE_SIZE;

// Whether one of the first n tables is out of range.
fn any_stray(tables: &[u8], n: usize) -> bool
    requires { n ≤ most_nodes }
    ensures { result ≡ any_below (stray_table (tables_in tables.now)) n }
{
    if tables.len() < TABLES_SIZE {
        return 0 < n;
    }
    for i in 0..n {
        if !table_image::image_in_range(&tables[TABLE_SIZE * i..]) {
            return true;
        }
    }
    false
}

// Whether one of the first tables is not that of the node at its place.
fn any_strange(nodes: Nodes, tables: &[u8]) -> bool
    requires counted { nodes.count ≤ most_nodes }
    requires ranged { any_below (stray_table (tables_in tables.now)) nodes.count ≡ false }
    ensures { result ≡ any_below (strange_table nodes (tables_in tables.now)) nodes.count }
{
    let n = nodes.count as usize;
    for (i, own) in nodes.items[..n].iter().enumerate() {
        if !address::same_station(own_held(tables, i), own.station) {
            return true;
        }
    }
    false
}

// What refuses a message at a place.
pub fn class_refusal(
    nodes: Nodes,
    tables: &[u8],
    at: u8,
    d: Address,
    arrival: Port,
) -> Result<(), Refusal>
    requires { nodes.count ≤ most_nodes }
    ensures { number_in result ≡ class_refusal nodes (tables_in tables.now) d at arrival }
{
    if any_stray(tables, nodes.count as usize) {
        return Err(Refusal::BadTable);
    }
    if nodes.count <= at {
        return Err(Refusal::NoNode);
    }
    if any_strange(nodes, tables) {
        return Err(Refusal::BadOwnAddress);
    }
    if !(address::in_range(d) & (arrival.0 <= LARGEST_PORT)) {
        return Err(Refusal::BadDestination);
    }
    Ok(())
}
