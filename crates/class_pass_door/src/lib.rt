// What C calls to pass a message from node to node until it ends (include/poztecameh.h; poztecameh exports it).
#![tactic(auto)]

ghost use Rattle.std.specs.Prelude.{◌≡◌, length};
ghost use Rattle.address.specs.Address.{address_of, station_of};
ghost use Rattle.class_pass_door.specs.Calls.{pz_pass_refusal, pz_pass_place, pz_pass_places, pz_pass_ending, pz_pass_way};

use address::{Address, Node, Port, Station};
use class::LONGEST_WAY;

// Writes the node places that a message comes to; `places` is how many, `ending` how it ended, `place` where the field begins that the chart's number
// refuses, else 0.
pub fn pz_pass(
    chart: &[u8],
    tables: &[u8],
    brigade: u8,
    node: u16,
    to_brigade: u8,
    to_node: u16,
    to_port: u8,
    way: &mut [u8],
    places: &mut u8,
    ending: &mut u8,
    place: &mut u16,
) -> u8
    ensures { (result ≡ pz_pass_refusal chart.now tables.now (address_of to_brigade to_node to_port) (station_of (address_of brigade node 0)) (length way.old)) × (places.new ≡ pz_pass_places chart.now tables.now (address_of to_brigade to_node to_port) (station_of (address_of brigade node 0)) (length way.old)) × (ending.new ≡ pz_pass_ending chart.now tables.now (address_of to_brigade to_node to_port) (station_of (address_of brigade node 0)) (length way.old)) × (place.new ≡ pz_pass_place chart.now) × (way.new ≡ pz_pass_way chart.now tables.now (address_of to_brigade to_node to_port) (station_of (address_of brigade node 0)) way.old) }
{
    *places = 0;
    *ending = 0;
    *place = 0;
    let s = Station {
        brigade,
        node: Node(node),
    };
    let d = Address {
        brigade: to_brigade,
        node: Node(to_node),
        port: Port(to_port),
    };
    match class::pass(chart, tables, s, d) {
        Err(fault) => {
            *place = fault.place as u16;
            fault.refusal.number()
        }
        Ok(p) => {
            if way.len() < LONGEST_WAY {
                return 10;
            }
            buffer::put_all(way, 0, &p.way[..p.count]);
            *places = p.count as u8;
            *ending = p.ending;
            0
        }
    }
}
