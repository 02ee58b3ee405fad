// The refusals 23 to 30 of one value, by the keys of the nodes and links before it.
ghost use Rattle.std.specs.Prelude.{◌≡◌};
ghost use Rattle.refusal.specs.Numbers.{number_in};
ghost use Rattle.chart_refuse.specs.Private.{node_refusal_by_keys, link_refusal_by_keys, ends_refusal_by_keys, question_refusal_by_keys};

use crate::known::{both_known, is_known, is_used};
use crate::ranges::{direction_in_range, end_in_range, node_in_range};
use address::{Address, Station, same_station, station_in_range, station_of};
use chart::{ChartNode, LONGEST_LABEL, Link, MOST_LINKS, MOST_NODES};
use refusal::Refusal;

// What refuses a node after those with the first n keys. It is late after a link or the question.
pub fn node_refusal(late: bool, keys: &[u32; 16], n: usize, node: ChartNode) -> Result<(), Refusal>
    ensures { number_in result ≡ node_refusal_by_keys late keys.now n node }
{
    if LONGEST_LABEL < node.length {
        return Err(Refusal::ChartLength);
    }
    if !node_in_range(node) {
        return Err(Refusal::ChartRange);
    }
    if late {
        return Err(Refusal::ChartAfter);
    }
    if MOST_NODES as usize <= n {
        return Err(Refusal::ChartCrowd);
    }
    if is_known(keys, n, node.station) {
        return Err(Refusal::ChartTwice);
    }
    Ok(())
}

// What refuses a link between two ends after the nodes with the first n keys and the first m links.
fn ends_refusal(
    late: bool,
    keys: &[u32; 16],
    n: usize,
    akeys: &[u32; 48],
    bkeys: &[u32; 48],
    m: usize,
    a: Address,
    b: Address,
) -> Result<(), Refusal>
    ensures { number_in result ≡ ends_refusal_by_keys late keys.now n akeys.now bkeys.now m a b }
{
    if !(end_in_range(a) & end_in_range(b)) {
        return Err(Refusal::ChartRange);
    }
    if late {
        return Err(Refusal::ChartAfter);
    }
    if (MOST_NODES as usize) < n {
        return Err(Refusal::ChartCrowd);
    }
    if MOST_LINKS as usize <= m {
        return Err(Refusal::ChartCrowd);
    }
    let s = station_of(a);
    let t = station_of(b);
    if !both_known(keys, n, s, t) {
        return Err(Refusal::ChartStranger);
    }
    if same_station(s, t) {
        return Err(Refusal::ChartLoop);
    }
    if is_used(akeys, bkeys, m, a) | is_used(akeys, bkeys, m, b) {
        return Err(Refusal::ChartTaken);
    }
    Ok(())
}

// What refuses a link of this form after them. It is late after the question, and after a link of the other form.
pub fn link_refusal(
    late: bool,
    form: u8,
    keys: &[u32; 16],
    n: usize,
    akeys: &[u32; 48],
    bkeys: &[u32; 48],
    m: usize,
    l: Link,
) -> Result<(), Refusal>
    ensures { number_in result ≡ link_refusal_by_keys late form keys.now n akeys.now bkeys.now m l }
{
    if !direction_in_range(form, l.direction) {
        return Err(Refusal::ChartRange);
    }
    ends_refusal(late, keys, n, akeys, bkeys, m, l.a, l.b)
}

// What refuses a question after the nodes with the first n keys. It is late after another.
pub fn question_refusal(
    late: bool,
    keys: &[u32; 16],
    n: usize,
    from: Station,
    to: Station,
) -> Result<(), Refusal>
    ensures { number_in result ≡ question_refusal_by_keys late keys.now n from to }
{
    if !(station_in_range(from) & station_in_range(to)) {
        return Err(Refusal::ChartRange);
    }
    if late {
        return Err(Refusal::ChartAfter);
    }
    if (MOST_NODES as usize) < n {
        return Err(Refusal::ChartCrowd);
    }
    if !both_known(keys, n, from, to) {
        return Err(Refusal::ChartStranger);
    }
    Ok(())
}
