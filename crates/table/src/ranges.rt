// What a table may hold: refusal 50.
ghost use Rattle.std.specs.Prelude.{◌≡◌, ◌≤◌};
ghost use Rattle.lists.specs.Places.{any_below};
ghost use Rattle.table.specs.Table.{most_entries, target_in_range, entry_in_range, stray_entry, table_in_range};

use crate::{Entry, Table, Target, own_station};
use address::{LARGEST_PORT, Station, station_in_range};

pub const MOST_ENTRIES: u8 = 32;

// Whether a node that the target names is in range.
fn target_in_range(g: Target) -> bool
    ensures { result ≡ target_in_range g }
{
    match g {
        Target::One(brigade, node) => station_in_range(Station { brigade, node }),
        Target::Brigade(_) => true,
        Target::Everything => true,
    }
}

// Whether the out port is 1 to 63 and the target in range.
fn entry_in_range(e: Entry) -> bool
    ensures { result ≡ entry_in_range e }
{
    (1 <= e.port.0) & (e.port.0 <= LARGEST_PORT) & target_in_range(e.target)
}

// Whether an entry that counts is out of range.
fn any_stray(t: Table) -> bool
    requires { t.count ≤ most_entries }
    ensures { result ≡ any_below (stray_entry t) t.count }
{
    for e in &t.entries[..t.count as usize] {
        if !entry_in_range(*e) {
            return true;
        }
    }
    false
}

// Whether the count, the own station and each entry that counts are in range.
pub fn table_in_range(t: Table) -> bool
    ensures { result ≡ table_in_range t }
{
    if MOST_ENTRIES < t.count {
        return false;
    }
    station_in_range(own_station(t)) & !any_stray(t)
}
