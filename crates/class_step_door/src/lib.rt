// What C calls to take a message a step on (include/poztecameh.h; poztecameh exports it).
#![tactic(auto)]

ghost use Rattle.std.specs.Prelude.{◌≡◌};
ghost use Rattle.address.specs.Address.{address_of};
ghost use Rattle.class_step_door.specs.Calls.{pz_step_refusal, pz_step_place, pz_step_message};

use address::{Address, Node, Port};
use class_image::MESSAGE_SIZE;

// Writes the message of an image a step on; `place` is where the field begins that the chart's number refuses, else 0.
pub fn pz_step(
    chart: &[u8],
    tables: &[u8],
    to_brigade: u8,
    to_node: u16,
    to_port: u8,
    message: &mut [u8],
    place: &mut u16,
) -> u8
    ensures { (result ≡ pz_step_refusal chart.now tables.now (address_of to_brigade to_node to_port) message.old) × (place.new ≡ pz_step_place chart.now) × (message.new ≡ pz_step_message chart.now tables.now (address_of to_brigade to_node to_port) message.old) }
{
    let d = Address {
        brigade: to_brigade,
        node: Node(to_node),
        port: Port(to_port),
    };
    let m = class_image::message_in(message);
    *place = 0;
    match class::step(chart, tables, d, m) {
        Err(fault) => {
            *place = fault.place as u16;
            fault.refusal.number()
        }
        Ok(next) => {
            if message.len() < MESSAGE_SIZE {
                return 10;
            }
            class_image::put_message(message, next);
            0
        }
    }
}
