// What C calls to write a node's routing table from the bytes of a chart (include/poztecameh.h; poztecameh exports it).
#![tactic(auto)]

ghost use Rattle.std.specs.Prelude.{◌≡◌, length};
ghost use Rattle.table_write_door.specs.Calls.{station, pz_table_refusal, pz_table_place, pz_table_image};

use address::{Node, Station};
use refusal::Refusal;
use table_image::TABLE_SIZE;

// Writes the table of one of the chart's nodes into an image; `place` is where the field begins that the chart's number refuses, else 0.
pub fn pz_table(chart: &[u8], brigade: u8, node: u16, table: &mut [u8], place: &mut u16) -> u8
    ensures { (result ≡ pz_table_refusal chart.now (station brigade node) (length table.old)) × (place.new ≡ pz_table_place chart.now) × (table.new ≡ pz_table_image chart.now (station brigade node) table.old) }
{
    *place = 0;
    let c = match chart_read::read_chart(chart) {
        Ok(c) => c,
        Err(fault) => {
            *place = fault.place as u16;
            return fault.refusal.number();
        }
    };
    let s = Station {
        brigade,
        node: Node(node),
    };
    let t = match table_write::write_known(c, s) {
        Ok(t) => t,
        Err(refusal) => return refusal.number(),
    };
    if table.len() < TABLE_SIZE {
        return Refusal::NoRoom.number();
    }
    table_image::put_table(table, t);
    0
}
