// What C calls for the next route (include/poztecameh.h; poztecameh exports it): the choice by the table that an image stands for.
#![tactic(auto)]

ghost use Rattle.std.specs.Prelude.{◌≡◌};
ghost use Rattle.address.specs.Address.{address_of};
ghost use Rattle.table_door.specs.Calls.{pz_choose_refusal, pz_choose_local, pz_choose_port};

use address::{Address, Node, Port};
use table::Choice;

// Where a message for the destination goes that came in by the arrival port: `local` 1, for this node at port `out`, or 0, out by port `out`.
pub fn pz_choose(
    table: &[u8],
    brigade: u8,
    node: u16,
    port: u8,
    arrival: u8,
    local: &mut u8,
    out: &mut u8,
) -> u8
    ensures { (result ≡ pz_choose_refusal table.now (address_of brigade node port) (record { 0 = arrival })) × (local.new ≡ pz_choose_local table.now (address_of brigade node port) (record { 0 = arrival })) × (out.new ≡ pz_choose_port table.now (address_of brigade node port) (record { 0 = arrival })) }
{
    *local = 0;
    *out = 0;
    let t = table_image::table_of(table);
    let d = Address {
        brigade,
        node: Node(node),
        port: Port(port),
    };
    let choice = table::choose(t, d, Port(arrival));
    match choice {
        Ok(Choice::Local(p)) => {
            *local = 1;
            *out = p.0;
            0
        }
        Ok(Choice::Out(p)) => {
            *out = p.0;
            0
        }
        Err(r) => r.number(),
    }
}
