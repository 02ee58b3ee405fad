// What C calls to move a chart to the other form of links (include/poztecameh.h; poztecameh exports them).
#![tactic(auto)]

ghost use Rattle.std.specs.Prelude.{◌≡◌, length};
ghost use Rattle.chart_form_door.specs.Calls.{pz_chart_renew_refusal, pz_chart_renew_place, pz_chart_renew_count, pz_chart_renew_chart, pz_chart_restore_refusal, pz_chart_restore_place, pz_chart_restore_count, pz_chart_restore_chart};

// Writes a chart in the directed form; `written` is how many bytes, `place` where the field begins that the chart's number refuses, else 0.
pub fn pz_chart_renew(chart: &[u8], out: &mut [u8], written: &mut u16, place: &mut u16) -> u8
    ensures { (result ≡ pz_chart_renew_refusal chart.now (length out.old)) × (written.new ≡ pz_chart_renew_count chart.now (length out.old)) × (place.new ≡ pz_chart_renew_place chart.now) × (out.new ≡ pz_chart_renew_chart chart.now out.old) }
{
    match chart_form::renew(chart, out) {
        Ok(n) => {
            *written = n as u16;
            *place = 0;
            0
        }
        Err(fault) => {
            *written = 0;
            *place = fault.place as u16;
            fault.refusal.number()
        }
    }
}

// Writes a chart in the plain form; `written` is how many bytes, `place` where the field begins that the chart's number refuses, else 0.
pub fn pz_chart_restore(chart: &[u8], out: &mut [u8], written: &mut u16, place: &mut u16) -> u8
    ensures { (result ≡ pz_chart_restore_refusal chart.now (length out.old)) × (written.new ≡ pz_chart_restore_count chart.now (length out.old)) × (place.new ≡ pz_chart_restore_place chart.now) × (out.new ≡ pz_chart_restore_chart chart.now out.old) }
{
    match chart_form::restore(chart, out) {
        Ok(n) => {
            *written = n as u16;
            *place = 0;
            0
        }
        Err(fault) => {
            *written = 0;
            *place = fault.place as u16;
            fault.refusal.number()
        }
    }
}
