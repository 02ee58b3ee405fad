// What C calls to mend a damaged chart (include/poztecameh.h; poztecameh exports it).
#![tactic(auto)]

ghost use Rattle.std.specs.Prelude.{◌≡◌, length};
ghost use Rattle.chart_mend_door.specs.Calls.{pz_mend_refusal, pz_mend_kept, pz_mend_listed, pz_mend_chart, pz_mend_list};

// Writes the fields that the reader would take, and an entry for each other; `kept` and `listed` are how many bytes.
pub fn pz_mend(
    input: &[u8],
    chart: &mut [u8],
    kept: &mut u16,
    list: &mut [u8],
    listed: &mut u32,
) -> u8
    ensures { (result ≡ pz_mend_refusal input.now (length chart.old) (length list.old)) × (kept.new ≡ pz_mend_kept input.now (length chart.old) (length list.old)) × (listed.new ≡ pz_mend_listed input.now (length chart.old) (length list.old)) × (chart.new ≡ pz_mend_chart input.now chart.old list.old) × (list.new ≡ pz_mend_list input.now chart.old list.old) }
{
    match chart_mend::mend(input, chart, list) {
        Ok(sizes) => {
            *kept = sizes.kept as u16;
            *listed = sizes.listed as u32;
            0
        }
        Err(refusal) => {
            *kept = 0;
            *listed = 0;
            refusal.number()
        }
    }
}
