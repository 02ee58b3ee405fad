// A chart moved to the other form of links (document 02, Five): renewed to the directed one, restored to the plain one.
#![tactic(auto)]

ghost use Rattle.std.specs.Prelude.{◌≡◌, true, ◌≤◌, length};
ghost use Rattle.refusal.specs.Numbers.{AnswersAt};
ghost use Rattle.chart.specs.Values.{most_links, plain, directed};
ghost use Rattle.chart_read.specs.Fields.{is_form};
ghost use Rattle.chart_form.specs.Moving.{in_form, one_way, moved, move_of, moved_after};

use chart::{BOTH_WAYS, Chart, DIRECTED, Links, PLAIN};
use refusal::{Fault, Refusal};

// The chart with its links in a form.
fn in_form(form: u8, c: Chart) -> Chart
    ensures { result ≡ in_form form c }
{
    Chart {
        links: Links { form, ..c.links },
        ..c
    }
}

// Whether one of the links does not go both ways.
fn one_way(links: Links) -> bool
    requires { links.count ≤ most_links }
    ensures { result ≡ one_way links }
{
    for l in &links.items[..links.count as usize] {
        if l.direction != BOTH_WAYS {
            return true;
        }
    }
    false
}

// Writes the chart that the bytes are into out, in one of the two forms, and gives the number of bytes written; or what refuses it, and the place of the
// field that the reader refuses, else 0.
fn move_to(form: u8, bytes: &[u8], out: &mut [u8]) -> Result<usize, Fault>
    requires { is_form form ≡ true }
    ensures value { AnswersAt result (move_of form bytes.now (length out.old)).refusal (move_of form bytes.now (length out.old)).place (move_of form bytes.now (length out.old)).written }
    ensures buffer { out.new ≡ moved_after form bytes.now out.old }
    ensures answer { moved result ≡ move_of form bytes.now (length out.old) }
{
    let c = chart_read::read_chart(bytes)?;
    if (form == PLAIN) & one_way(c.links) {
        return Err(Fault {
            refusal: Refusal::ChartOneWay,
            place: 0,
        });
    }
    match chart_write::write_chart(in_form(form, c), out) {
        Ok(written) => Ok(written),
        Err(refusal) => Err(Fault { refusal, place: 0 }),
    }
}

// Writes a chart into out with its links in the directed form: each plain link as both ways.
pub fn renew(bytes: &[u8], out: &mut [u8]) -> Result<usize, Fault>
    ensures value { AnswersAt result (move_of directed bytes.now (length out.old)).refusal (move_of directed bytes.now (length out.old)).place (move_of directed bytes.now (length out.old)).written }
    ensures buffer { out.new ≡ moved_after directed bytes.now out.old }
    ensures answer { moved result ≡ move_of directed bytes.now (length out.old) }
{
    move_to(DIRECTED, bytes, out)
}

// Writes a chart into out with its links in the plain form; refused where one of them does not go both ways.
pub fn restore(bytes: &[u8], out: &mut [u8]) -> Result<usize, Fault>
    ensures value { AnswersAt result (move_of plain bytes.now (length out.old)).refusal (move_of plain bytes.now (length out.old)).place (move_of plain bytes.now (length out.old)).written }
    ensures buffer { out.new ≡ moved_after plain bytes.now out.old }
    ensures answer { moved result ≡ move_of plain bytes.now (length out.old) }
{
    move_to(PLAIN, bytes, out)
}
