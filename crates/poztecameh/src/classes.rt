// What C calls to pass a message from node to node.

ghost use Rattle.std.specs.Prelude.{◌≡◌, length};
ghost use Rattle.address.specs.Address.{address_of, station_of};
ghost use Rattle.class_pass_door.specs.Calls.{pz_pass_refusal, pz_pass_place, pz_pass_places, pz_pass_ending, pz_pass_way};
ghost use Rattle.class_begin_door.specs.Calls.{pz_begin_refusal, pz_begin_place, pz_begin_message};
ghost use Rattle.class_step_door.specs.Calls.{pz_step_refusal, pz_step_place, pz_step_message};

// Writes the node places that a message comes to; `places` is how many, `ending` how it ended, `place` where the field begins that the chart's number
// refuses, else 0.
#[unsafe(no_mangle)]
pub extern "C" fn pz_pass(
    chart: &[u8],
    tables: &[u8],
    brigade: u8,
    node: u16,
    to_brigade: u8,
    to_node: u16,
    to_port: u8,
    way: &mut [u8],
    places: &mut u8,
    ending: &mut u8,
    place: &mut u16,
) -> u8
    ensures { (result ≡ pz_pass_refusal chart.now tables.now (address_of to_brigade to_node to_port) (station_of (address_of brigade node 0)) (length way.old)) × (places.new ≡ pz_pass_places chart.now tables.now (address_of to_brigade to_node to_port) (station_of (address_of brigade node 0)) (length way.old)) × (ending.new ≡ pz_pass_ending chart.now tables.now (address_of to_brigade to_node to_port) (station_of (address_of brigade node 0)) (length way.old)) × (place.new ≡ pz_pass_place chart.now) × (way.new ≡ pz_pass_way chart.now tables.now (address_of to_brigade to_node to_port) (station_of (address_of brigade node 0)) way.old) }
{
    class_pass_door::pz_pass(
        chart, tables, brigade, node, to_brigade, to_node, to_port, way, places, ending, place,
    )
}

// Writes the image of a message that begins at a station; `place` is where the field begins that the chart's number refuses, else 0.
#[unsafe(no_mangle)]
pub extern "C" fn pz_begin(
    chart: &[u8],
    tables: &[u8],
    brigade: u8,
    node: u16,
    to_brigade: u8,
    to_node: u16,
    to_port: u8,
    message: &mut [u8],
    place: &mut u16,
) -> u8
    ensures { (result ≡ pz_begin_refusal chart.now tables.now (address_of to_brigade to_node to_port) (station_of (address_of brigade node 0)) (length message.old)) × (place.new ≡ pz_begin_place chart.now) × (message.new ≡ pz_begin_message chart.now tables.now (address_of to_brigade to_node to_port) (station_of (address_of brigade node 0)) message.old) }
{
    class_begin_door::pz_begin(
        chart, tables, brigade, node, to_brigade, to_node, to_port, message, place,
    )
}

// Writes the message of an image a step on; `place` is where the field begins that the chart's number refuses, else 0.
#[unsafe(no_mangle)]
pub extern "C" fn pz_step(
    chart: &[u8],
    tables: &[u8],
    to_brigade: u8,
    to_node: u16,
    to_port: u8,
    message: &mut [u8],
    place: &mut u16,
) -> u8
    ensures { (result ≡ pz_step_refusal chart.now tables.now (address_of to_brigade to_node to_port) message.old) × (place.new ≡ pz_step_place chart.now) × (message.new ≡ pz_step_message chart.now tables.now (address_of to_brigade to_node to_port) message.old) }
{
    class_step_door::pz_step(chart, tables, to_brigade, to_node, to_port, message, place)
}
