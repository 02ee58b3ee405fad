// Mending a damaged chart (document 02, Twelve): the fields that the reader would take, each after those kept before it, and a list of the others.
#![tactic(auto)]

ghost use Rattle.std.specs.Prelude.{◌≡◌, [], ◌∷◌, ◌++◌, ◌<◌, ◌≤◌, length};
ghost use Rattle.refusal.specs.Numbers.{number, Answers};
ghost use Rattle.buffer.specs.Bytes.{word_bytes};
ghost use Rattle.buffer.specs.Writing.{lent_after};
ghost use Rattle.chart_mend.specs.Mending.{longest_input, kept_bytes, list_bytes, mend_refusal, mended, mend_of, sizes_of};
ghost use Rattle.chart_mend.specs.Private.{PassedOver};

use chart_read::{field_end, no_keys, take_field};
use refusal::Refusal;

pub const LONGEST_INPUT: usize = 65535;

// The bytes of an entry of the list.
pub const ENTRY_SIZE: usize = 3;

// What the first pass finds is laid aside, so that a refusal touches nothing: a chart of any size, and a list of 512 entries. A longer list takes a
// second pass.
const CHART_ASIDE: usize = 1113;

const LIST_ASIDE: usize = 1536;

// How many bytes were kept and how many listed.
#[derive(Clone, Copy)]
pub struct MendedSizes {
    pub kept: usize,
    pub listed: usize,
}

// What a pass over the fields comes to: whether the question is kept, and how many bytes are kept and listed.
#[derive(Clone, Copy)]
pub struct Sorted {
    pub asked: bool,
    pub kept: usize,
    pub listed: usize,
}

// An entry of the list: a place in two bytes, then a refusal's number.
fn entry(at: usize, refusal: Refusal) -> [u8; 3]
    requires { at < 65536 }
    ensures { result ≡ word_bytes at ++ (number refusal ∷ []) }
{
    let [high, low] = (at as u16).to_be_bytes();
    [high, low, refusal.number()]
}

// One pass over the fields: those that are kept into `out`, an entry for each other into `list`, each from the front. What does not fit is counted, not stored.
fn sort(input: &[u8], out: &mut [u8], list: &mut [u8]) -> Sorted
    requires { length input.now ≤ longest_input }
    ensures { PassedOver input.now out.old list.old result out.new list.new }
{
    let mut keys = no_keys();
    let mut kept: usize = 0;
    let mut listed: usize = 0;
    let mut at: usize = 0;
    while at < input.len() {
        let next = field_end(input, at);
        match take_field(&mut keys, input, at) {
            Ok(()) => {
                buffer::put_all(out, kept, &input[at..next]);
                kept += next - at;
            }
            Err(refusal) => {
                buffer::put_all(list, listed, &entry(at, refusal));
                listed += ENTRY_SIZE;
            }
        }
        at = next;
    }
    Sorted {
        asked: keys.counts.asked,
        kept,
        listed,
    }
}

// The fields of the input that the reader would take, each after those kept before it, into `out`; for each of the others its place and number into `list`.
pub fn mend(input: &[u8], out: &mut [u8], list: &mut [u8]) -> Result<MendedSizes, Refusal>
    ensures value { Answers result (mend_of input.now (length out.old) (length list.old)).refusal (sizes_of (mend_of input.now (length out.old) (length list.old))) }
    ensures chart { out.new ≡ lent_after (mend_refusal input.now (length out.old) (length list.old)) (kept_bytes input.now) out.old }
    ensures list { list.new ≡ lent_after (mend_refusal input.now (length out.old) (length list.old)) (list_bytes input.now) list.old }
    ensures answer { mended result ≡ mend_of input.now (length out.old) (length list.old) }
{
    if LONGEST_INPUT < input.len() {
        return Err(Refusal::ChartLong);
    }
    let mut chart = [0u8; CHART_ASIDE];
    let mut entries = [0u8; LIST_ASIDE];
    let s = sort(input, &mut chart, &mut entries);
    if !s.asked {
        return Err(Refusal::ChartUnasked);
    }
    if out.len() < s.kept {
        return Err(Refusal::NoRoom);
    }
    if list.len() < s.listed {
        return Err(Refusal::NoRoom);
    }
    if (s.kept <= CHART_ASIDE) & (s.listed <= LIST_ASIDE) {
        buffer::put_all(out, 0, &chart[..s.kept]);
        buffer::put_all(list, 0, &entries[..s.listed]);
    } else {
        sort(input, out, list);
    }
    Ok(MendedSizes {
        kept: s.kept,
        listed: s.listed,
    })
}
