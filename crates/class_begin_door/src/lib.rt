// What C calls to begin a message at a node (include/poztecameh.h; poztecameh exports it).
#![tactic(auto)]

ghost use Rattle.std.specs.Prelude.{◌≡◌, length};
ghost use Rattle.address.specs.Address.{address_of, station_of};
ghost use Rattle.class_begin_door.specs.Calls.{pz_begin_refusal, pz_begin_place, pz_begin_message};

use address::{Address, Node, Port, Station};
use class_image::MESSAGE_SIZE;

// Writes the image of a message that begins at a station; `place` is where the field begins that the chart's number refuses, else 0.
pub fn pz_begin(
    chart: &[u8],
    tables: &[u8],
    brigade: u8,
    node: u16,
    to_brigade: u8,
    to_node: u16,
    to_port: u8,
    message: &mut [u8],
    place: &mut u16,
) -> u8
    ensures { (result ≡ pz_begin_refusal chart.now tables.now (address_of to_brigade to_node to_port) (station_of (address_of brigade node 0)) (length message.old)) × (place.new ≡ pz_begin_place chart.now) × (message.new ≡ pz_begin_message chart.now tables.now (address_of to_brigade to_node to_port) (station_of (address_of brigade node 0)) message.old) }
{
    let s = Station {
        brigade,
        node: Node(node),
    };
    let d = Address {
        brigade: to_brigade,
        node: Node(to_node),
        port: Port(to_port),
    };
    *place = 0;
    match class::begin(chart, tables, s, d) {
        Err(fault) => {
            *place = fault.place as u16;
            fault.refusal.number()
        }
        Ok(m) => {
            if message.len() < MESSAGE_SIZE {
                return 10;
            }
            class_image::put_message(message, m);
            0
        }
    }
}
