// Whether a station or an end is among those before it, by keys.
ghost use Rattle.std.specs.Prelude.{◌≡◌, ◌&&◌, ◌≤◌};
ghost use Rattle.chart_refuse.specs.Private.{known, used_by};
ghost use Rattle.chart.specs.Values.{most_links, most_nodes};

use crate::keys::{end_key, station_key};
use address::{Address, Station};
use lists::holds;

// Whether a station's key is among the first n.
pub fn is_known(keys: &[u32; 16], n: usize, s: Station) -> bool
    requires { n ≤ most_nodes }
    ensures { result ≡ known keys.now n s }
{
    holds(&keys[..n], station_key(s))
}

// Whether the keys of both stations are.
pub fn both_known(keys: &[u32; 16], n: usize, s: Station, t: Station) -> bool
    requires { n ≤ most_nodes }
    ensures { result ≡ (known keys.now n s && known keys.now n t) }
{
    is_known(keys, n, s) & is_known(keys, n, t)
}

// Whether an end's key is among those of the first m links.
pub fn is_used(akeys: &[u32; 48], bkeys: &[u32; 48], m: usize, e: Address) -> bool
    requires { m ≤ most_links }
    ensures { result ≡ used_by akeys.now bkeys.now m e }
{
    let k = end_key(e);
    holds(&akeys[..m], k) | holds(&bkeys[..m], k)
}
