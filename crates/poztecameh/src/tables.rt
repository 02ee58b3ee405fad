// What C calls to choose by a routing table, and to write one from a chart.

ghost use Rattle.std.specs.Prelude.{◌≡◌, length};
ghost use Rattle.address.specs.Address.{address_of};
ghost use Rattle.table_door.specs.Calls.{pz_choose_refusal, pz_choose_local, pz_choose_port};
ghost use Rattle.table_write_door.specs.Calls.{station, pz_table_refusal, pz_table_place, pz_table_image};

// Where a message for the destination goes that came in by the arrival port: `local` 1, for this node at port `out`, or 0, out by port `out`.
#[unsafe(no_mangle)]
pub extern "C" fn pz_choose(
    table: &[u8],
    brigade: u8,
    node: u16,
    port: u8,
    arrival: u8,
    local: &mut u8,
    out: &mut u8,
) -> u8
    ensures { (result ≡ pz_choose_refusal table.now (address_of brigade node port) (record { 0 = arrival })) × (local.new ≡ pz_choose_local table.now (address_of brigade node port) (record { 0 = arrival })) × (out.new ≡ pz_choose_port table.now (address_of brigade node port) (record { 0 = arrival })) }
{
    table_door::pz_choose(table, brigade, node, port, arrival, local, out)
}

// Writes the table of one of the chart's nodes into an image; `place` is where the field begins that the chart's number refuses, else 0.
#[unsafe(no_mangle)]
pub extern "C" fn pz_table(
    chart: &[u8],
    brigade: u8,
    node: u16,
    table: &mut [u8],
    place: &mut u16,
) -> u8
    ensures { (result ≡ pz_table_refusal chart.now (station brigade node) (length table.old)) × (place.new ≡ pz_table_place chart.now) × (table.new ≡ pz_table_image chart.now (station brigade node) table.old) }
{
    table_write_door::pz_table(chart, brigade, node, table, place)
}
