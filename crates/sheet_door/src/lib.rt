// What C calls for a printed sheet (include/poztecameh.h; poztecameh exports it): an input in, its text out.
#![tactic(auto)]

ghost use Rattle.std.specs.Prelude.{◌≡◌, length};
ghost use Rattle.lists.specs.Refusals.{unless_refused};
ghost use Rattle.sheet.specs.Sheet.{sheet_text, sheet_refusal, sheet_after};

// Writes the sheet; `written` is how many bytes.
pub fn pz_sheet(chart: &[u8], text: &mut [u8], written: &mut u32) -> u8
    ensures { (result ≡ sheet_refusal chart.now (length text.old)) × (written.new ≡ unless_refused (sheet_refusal chart.now (length text.old)) (length (sheet_text chart.now)) 0) × (text.new ≡ sheet_after chart.now text.old) }
{
    *written = 0;
    match sheet::write_sheet(chart, text) {
        Ok(n) => {
            *written = n as u32;
            0
        }
        Err(refusal) => refusal.number(),
    }
}
