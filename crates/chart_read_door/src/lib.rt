// What C calls to read a chart into its image, 937 bytes (include/poztecameh.h; poztecameh exports it).
#![tactic(auto)]

ghost use Rattle.std.specs.Prelude.{◌≡◌, length};
ghost use Rattle.chart_read_door.specs.Calls.{pz_chart_read_refusal, pz_chart_read_place, pz_chart_read_image};

use chart_image::CHART_IMAGE_SIZE;
use refusal::Refusal;

// Reads a chart, and writes its image; `place` is where the field begins that the chart's number refuses, else 0.
pub fn pz_chart_read(chart: &[u8], image: &mut [u8], place: &mut u16) -> u8
    ensures { (result ≡ pz_chart_read_refusal chart.now (length image.old)) × (place.new ≡ pz_chart_read_place chart.now) × (image.new ≡ pz_chart_read_image chart.now image.old) }
{
    *place = 0;
    let c = match chart_read::read_chart(chart) {
        Ok(c) => c,
        Err(fault) => {
            *place = fault.place as u16;
            return fault.refusal.number();
        }
    };
    if image.len() < CHART_IMAGE_SIZE {
        return Refusal::NoRoom.number();
    }
    chart_image::put_chart(image, c);
    0
}
