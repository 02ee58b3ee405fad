// What C calls to read, write, move and mend a chart.

ghost use Rattle.std.specs.Prelude.{◌≡◌, length};
ghost use Rattle.chart_read_door.specs.Calls.{pz_chart_read_refusal, pz_chart_read_place, pz_chart_read_image};
ghost use Rattle.chart_write_door.specs.Calls.{pz_chart_write_refusal, pz_chart_write_count, pz_chart_write_chart};
ghost use Rattle.chart_form_door.specs.Calls.{pz_chart_renew_refusal, pz_chart_renew_place, pz_chart_renew_count, pz_chart_renew_chart, pz_chart_restore_refusal, pz_chart_restore_place, pz_chart_restore_count, pz_chart_restore_chart};
ghost use Rattle.chart_mend_door.specs.Calls.{pz_mend_refusal, pz_mend_kept, pz_mend_listed, pz_mend_chart, pz_mend_list};

// Reads a chart, and writes its image; `place` is where the field begins that the chart's number refuses, else 0.
#[unsafe(no_mangle)]
pub extern "C" fn pz_chart_read(chart: &[u8], image: &mut [u8], place: &mut u16) -> u8
    ensures { (result ≡ pz_chart_read_refusal chart.now (length image.old)) × (place.new ≡ pz_chart_read_place chart.now) × (image.new ≡ pz_chart_read_image chart.now image.old) }
{
    chart_read_door::pz_chart_read(chart, image, place)
}

// Writes the chart in an image; `written` is how many bytes.
#[unsafe(no_mangle)]
pub extern "C" fn pz_chart_write(image: &[u8], chart: &mut [u8], written: &mut u16) -> u8
    ensures { (result ≡ pz_chart_write_refusal image.now (length chart.old)) × (written.new ≡ pz_chart_write_count image.now (length chart.old)) × (chart.new ≡ pz_chart_write_chart image.now chart.old) }
{
    chart_write_door::pz_chart_write(image, chart, written)
}

// Writes a chart in the directed form; `written` is how many bytes, `place` where the field begins that the chart's number refuses, else 0.
#[unsafe(no_mangle)]
pub extern "C" fn pz_chart_renew(
    chart: &[u8],
    out: &mut [u8],
    written: &mut u16,
    place: &mut u16,
) -> u8
    ensures { (result ≡ pz_chart_renew_refusal chart.now (length out.old)) × (written.new ≡ pz_chart_renew_count chart.now (length out.old)) × (place.new ≡ pz_chart_renew_place chart.now) × (out.new ≡ pz_chart_renew_chart chart.now out.old) }
{
    chart_form_door::pz_chart_renew(chart, out, written, place)
}

// Writes a chart in the plain form; `written` is how many bytes, `place` where the field begins that the chart's number refuses, else 0.
#[unsafe(no_mangle)]
pub extern "C" fn pz_chart_restore(
    chart: &[u8],
    out: &mut [u8],
    written: &mut u16,
    place: &mut u16,
) -> u8
    ensures { (result ≡ pz_chart_restore_refusal chart.now (length out.old)) × (written.new ≡ pz_chart_restore_count chart.now (length out.old)) × (place.new ≡ pz_chart_restore_place chart.now) × (out.new ≡ pz_chart_restore_chart chart.now out.old) }
{
    chart_form_door::pz_chart_restore(chart, out, written, place)
}

// Writes the fields that the reader would take, and an entry for each other; `kept` and `listed` are how many bytes.
#[unsafe(no_mangle)]
pub extern "C" fn pz_mend(
    input: &[u8],
    chart: &mut [u8],
    kept: &mut u16,
    list: &mut [u8],
    listed: &mut u32,
) -> u8
    ensures { (result ≡ pz_mend_refusal input.now (length chart.old) (length list.old)) × (kept.new ≡ pz_mend_kept input.now (length chart.old) (length list.old)) × (listed.new ≡ pz_mend_listed input.now (length chart.old) (length list.old)) × (chart.new ≡ pz_mend_chart input.now chart.old list.old) × (list.new ≡ pz_mend_list input.now chart.old list.old) }
{
    chart_mend_door::pz_mend(input, chart, kept, list, listed)
}
