// The chart's writer (document 01, "The chart"; document 02, Five): a chart given as values is refused, or its bytes are put into a lent buffer.
#![tactic(auto)]

ghost use Rattle.std.specs.Prelude.{◌≡◌, length};
ghost use Rattle.lists.specs.Refusals.{unless_refused};
ghost use Rattle.refusal.specs.Numbers.{Answers};
ghost use Rattle.buffer.specs.Writing.{written, written_refusal, written_count};
ghost use Rattle.chart_write.specs.Writing.{chart_bytes, chart_write_refusal, write_chart_of, chart_after};

use chart::Chart;
use chart_refuse::chart_refusal;
use refusal::Refusal;
use storing::{chart_size, put_chart};

mod bytes;
mod storing;

pub use bytes::link_body;

// Writes a chart into out, and gives the number of bytes written, or the refusal. What is unused is not looked at.
pub fn write_chart(c: Chart, out: &mut [u8]) -> Result<usize, Refusal>
    ensures value { Answers result (chart_write_refusal c (length out.old)) (length (chart_bytes c)) }
    ensures buffer { out.new ≡ chart_after c out.old }
    ensures answer { written result ≡ write_chart_of c (length out.old) }
    ensures refusal { written_refusal (written result) ≡ chart_write_refusal c (length out.old) }
    ensures count { written_count (written result) ≡ unless_refused (chart_write_refusal c (length out.old)) (length (chart_bytes c)) 0 }
{
    chart_refusal(c)?;
    let size = chart_size(c);
    if out.len() < size {
        return Err(Refusal::NoRoom);
    }
    put_chart(c, out);
    Ok(size)
}
