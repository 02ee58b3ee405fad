// The image of a routing table, 196 bytes: whether it can be read, the table in it, and a table put into it.
#![tactic(auto)]

ghost use Rattle.std.specs.Prelude.{◌≡◌, true, false, not, ◌+◌, ◌≤◌, length};
ghost use Rattle.std.proofs.lemmas.List.Edits.{sets};
ghost use Rattle.lists.specs.Places.{any_below, joined};
ghost use Rattle.lists.specs.Refusals.{unless_refused};
ghost use Rattle.refusal.specs.Numbers.{number_in};
ghost use Rattle.table.specs.Choice.{choice_in};
ghost use Rattle.table.specs.Table.{most_entries, entry_at, table_in_range, is_own, out_choice, choose_of, choose_refusal, choose_port, choice_refusal, choice_local, choice_port};
ghost use Rattle.table_image.specs.Private.{ranged_entry_in, unranged_held};
ghost use Rattle.table_image.specs.Table.{table_size, entries_start, entry_bytes, table_image, entry_count, target_of, entry_in, stray_entry_in, stray_entry_held, readable_table, table_of};

use address::{Address, LARGEST_NODE, LARGEST_PORT, Node, Port};
use refusal::Refusal;
use table::{Choice, Entry, MOST_ENTRIES, Table, Target};

pub const TABLE_SIZE: usize = 196;

// Where the entries begin, and the bytes of each.
const ENTRIES_START: usize = 4;

const ENTRY_SIZE: usize = 6;

// The target of a kind.
fn target_of(kind: u8, brigade: u8, node: u16) -> Target
    ensures { result ≡ target_of kind brigade node }
{
    match kind {
        0 => Target::One(brigade, Node(node)),
        1 => Target::Brigade(brigade),
        _ => Target::Everything,
    }
}

// The entry whose 6 bytes begin at a place.
fn entry_in(b: &[u8], at: usize) -> Entry
    requires { at + 6 ≤ length b.now }
    ensures { result ≡ entry_in b.now at }
{
    Entry {
        target: target_of(b[at], b[at + 1], buffer::word_at(b, at + 2)),
        port: Port(b[at + 4]),
        on: b[at + 5] == 1,
    }
}

// Whether the 6 bytes that begin at a place are no entry's.
fn stray_entry(b: &[u8], at: usize) -> bool
    requires { at + 6 ≤ length b.now }
    ensures { result ≡ stray_entry_in b.now at }
{
    if 2 < b[at] {
        return true;
    }
    1 < b[at + 5]
}

// Whether one of the first n places holds bytes that are no entry's.
fn any_stray(b: &[u8], n: usize) -> bool
    requires { (n ≤ most_entries) × (table_size ≤ length b.now) }
    ensures { result ≡ any_below (stray_entry_held b.now) n }
{
    for i in 0..n {
        if stray_entry(b, ENTRIES_START + ENTRY_SIZE * i) {
            return true;
        }
    }
    false
}

// Whether the image of a table can be read.
fn readable_table(b: &[u8]) -> bool
    ensures { result ≡ readable_table b.now }
{
    if b.len() < TABLE_SIZE {
        return false;
    }
    let n = b[3];
    if MOST_ENTRIES < n {
        return false;
    }
    !any_stray(b, n as usize)
}

// The table in an image, with no entry at the places past the count; where it can't be read, one with an entry too many.
pub fn table_of(b: &[u8]) -> Table
    ensures { result ≡ table_of b.now }
{
    let mut entries = [table::no_entry(); 32];
    if !readable_table(b) {
        return Table {
            brigade: 0,
            count: MOST_ENTRIES + 1,
            node: Node(0),
            entries,
        };
    }
    let count = b[3];
    for i in 0..count as usize {
        entries[i] = entry_in(b, ENTRIES_START + ENTRY_SIZE * i);
    }
    Table {
        brigade: b[0],
        count,
        node: Node(buffer::word_at(b, 1)),
        entries,
    }
}

// The 6 bytes of an entry: what its kind does not name is 0.
fn entry_bytes(e: Entry) -> [u8; 6]
    ensures { result ≡ entry_bytes e }
{
    let port = e.port.0;
    let on = e.on as u8;
    match e.target {
        Target::One(brigade, node) => {
            let [high, low] = node.0.to_be_bytes();
            [0, brigade, high, low, port, on]
        }
        Target::Brigade(brigade) => [1, brigade, 0, 0, port, on],
        Target::Everything => [2, 0, 0, 0, port, on],
    }
}

// The bytes of all 32 places of entries.
fn put_entries(image: &mut [u8], t: Table)
    ensures { image.new ≡ sets image.old entries_start (joined entry_bytes (entry_at t) most_entries) }
{
    for (i, e) in t.entries.iter().enumerate() {
        buffer::put_all(image, ENTRIES_START + ENTRY_SIZE * i, &entry_bytes(*e));
    }
}

// The table; bytes past the end of an image are left out.
pub fn put_table(image: &mut [u8], t: Table)
    ensures { image.new ≡ sets image.old 0 (table_image t) }
{
    let [high, low] = t.node.0.to_be_bytes();
    buffer::put_all(image, 0, &[t.brigade, high, low, t.count]);
    put_entries(image, t);
}

// Whether the 6 bytes that begin at a place are an entry's, and in range.
fn entry_in_range(b: &[u8], at: usize) -> bool
    requires { at + 6 ≤ length b.now }
    ensures { result ≡ ranged_entry_in b.now at }
{
    if stray_entry(b, at) {
        return false;
    }
    let port = b[at + 4];
    if (port == 0) | (LARGEST_PORT < port) {
        return false;
    }
    if b[at] != 0 {
        return true;
    }
    buffer::word_at(b, at + 2) <= LARGEST_NODE
}

// Whether each of the first n places holds such an entry.
fn all_in_range(b: &[u8], n: usize) -> bool
    requires { (n ≤ most_entries) × (table_size ≤ length b.now) }
    ensures { result ≡ not (any_below (unranged_held b.now) n) }
{
    for i in 0..n {
        if !entry_in_range(b, ENTRIES_START + ENTRY_SIZE * i) {
            return false;
        }
    }
    true
}

// Whether the image stands for a table that is in range.
pub fn image_in_range(b: &[u8]) -> bool
    ensures { result ≡ table_in_range (table_of b.now) }
{
    if b.len() < TABLE_SIZE {
        return false;
    }
    let n = b[3];
    if MOST_ENTRIES < n {
        return false;
    }
    if LARGEST_NODE < buffer::word_at(b, 1) {
        return false;
    }
    all_in_range(b, n as usize)
}

// The port of the first of the first n entries that qualifies, or 52.
fn out_choice_in(b: &[u8], n: usize, d: Address, arrival: Port) -> Result<Choice, Refusal>
    requires readable { readable_table b.now ≡ true }
    requires counted { n ≡ entry_count b.now }
    ensures { choice_in result ≡ out_choice (table_of b.now) d arrival }
{
    for i in 0..n {
        let e = entry_in(b, ENTRIES_START + ENTRY_SIZE * i);
        if table::qualifies(e, d, arrival) {
            return Ok(Choice::Out(e.port));
        }
    }
    Err(Refusal::NoEntry)
}

// Where a message for the destination goes that came in by the arrival port, by the table that the image stands for.
pub fn choose_in(b: &[u8], d: Address, arrival: Port) -> Result<Choice, Refusal>
    ensures value { choice_in result ≡ choose_of (table_of b.now) d arrival }
    ensures refusal { number_in result ≡ choose_refusal (table_of b.now) d arrival }
    ensures local { choice_local (choice_in result) ≡ unless_refused (choose_refusal (table_of b.now) d arrival) (is_own (table_of b.now) d) false }
    ensures port { choice_port (choice_in result) ≡ unless_refused (choose_refusal (table_of b.now) d arrival) (choose_port (table_of b.now) d arrival) 0 }
    ensures number { choice_refusal (choice_in result) ≡ choose_refusal (table_of b.now) d arrival }
{
    if !image_in_range(b) {
        return Err(Refusal::BadTable);
    }
    if !(address::in_range(d) & (arrival.0 <= LARGEST_PORT)) {
        return Err(Refusal::BadDestination);
    }
    if (b[0] == d.brigade) & (buffer::word_at(b, 1) == d.node.0) {
        return Ok(Choice::Local(d.port));
    }
    out_choice_in(b, b[3] as usize, d, arrival)
}
