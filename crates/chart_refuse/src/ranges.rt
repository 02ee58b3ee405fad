// What the values of a chart may be: refusal 24.
ghost use Rattle.std.specs.Prelude.{◌≡◌, ◌≤◌, length};
ghost use Rattle.lists.specs.Places.{any_below};
ghost use Rattle.chart.specs.Values.{longest_label, stray_byte, node_in_range, end_in_range, direction_in_range};

use address::{Address, station_in_range};
use chart::{BACK_ONLY, BOTH_WAYS, ChartNode, DIRECTED, PLAIN};

const LOWEST_BYTE: u8 = 32;

const HIGHEST_BYTE: u8 = 126;

// Whether one of the bytes is none that a label may have. No early return, so the compiler looks at several bytes at once.
fn any_stray(label: &[u8]) -> bool
    ensures { result ≡ any_below (stray_byte label.now) (length label.now) }
{
    let mut found = false;
    for x in label {
        found |= (*x < LOWEST_BYTE) | (HIGHEST_BYTE < *x);
    }
    found
}

// Whether the station and the label are in range.
pub fn node_in_range(n: ChartNode) -> bool
    requires { n.length ≤ longest_label }
    ensures { result ≡ node_in_range n }
{
    station_in_range(n.station) & !any_stray(&n.label[..n.length as usize])
}

// Whether the address is in range and its port 1 to 63.
pub fn end_in_range(e: Address) -> bool
    ensures { result ≡ end_in_range e }
{
    (1 <= e.port.0) & address::in_range(e)
}

// Whether a link of this form may have this direction.
pub fn direction_in_range(form: u8, direction: u8) -> bool
    ensures { result ≡ direction_in_range form direction }
{
    if form == PLAIN {
        return direction == BOTH_WAYS;
    }
    (form == DIRECTED) & (direction <= BACK_ONLY)
}
