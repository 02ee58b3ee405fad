// What C calls to write the chart in an image (include/poztecameh.h; poztecameh exports it).
#![tactic(auto)]

ghost use Rattle.std.specs.Prelude.{◌≡◌, length};
ghost use Rattle.chart_write_door.specs.Calls.{pz_chart_write_refusal, pz_chart_write_count, pz_chart_write_chart};

use chart_image::CHART_IMAGE_SIZE;
use refusal::Refusal;

// Writes the chart in an image; `written` is how many bytes.
pub fn pz_chart_write(image: &[u8], chart: &mut [u8], written: &mut u16) -> u8
    ensures { (result ≡ pz_chart_write_refusal image.now (length chart.old)) × (written.new ≡ pz_chart_write_count image.now (length chart.old)) × (chart.new ≡ pz_chart_write_chart image.now chart.old) }
{
    *written = 0;
    if image.len() < CHART_IMAGE_SIZE {
        return Refusal::NoRoom.number();
    }
    let c = chart_image::chart_in(image);
    match chart_write::write_chart(c, chart) {
        Ok(n) => {
            *written = n as u16;
            0
        }
        Err(refusal) => refusal.number(),
    }
}
