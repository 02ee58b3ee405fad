// Legs as keys, to see whether two open ones are alike: each leg is looked at once, and the rest goes by its key.
ghost use Rattle.std.specs.Prelude.{◌≡◌, ◌<◌, ◌≤◌};
ghost use Rattle.lists.specs.Places.{repeat_at, repeats, element_at};
ghost use Rattle.ledger.specs.Private.{leg_key, same_key};
ghost use Rattle.ledger.specs.Rules.{most_legs};

use crate::Leg;
use crate::rules::is_open;

// The 63 bits of source, destination and sequence number of an open leg, and one more; 0 of a settled leg.
pub fn leg_key(g: Leg) -> u64
    ensures { result ≡ leg_key g }
{
    if !is_open(g.standing) {
        return 0;
    }
    let source = u64::from(address_bytes::address_key(g.source));
    let destination = u64::from(address_bytes::address_key(g.destination));
    (source * 16777216 + destination) * 32768 + u64::from(g.seq.0) + 1
}

// Whether the key at i is an open leg's, and that of an earlier place.
fn seen(keys: &[u64; 128], i: usize) -> bool
    requires { i < most_legs }
    ensures { result ≡ repeat_at same_key (element_at 0 keys.now) i }
{
    (keys[i] != 0) & lists::holds(&keys[..i], keys[i])
}

// Whether two of the first n keys are those of legs alike.
pub fn repeated(keys: &[u64; 128], n: usize) -> bool
    requires { n ≤ most_legs }
    ensures { result ≡ repeats same_key (element_at 0 keys.now) n }
{
    for i in 0..n {
        if seen(keys, i) {
            return true;
        }
    }
    false
}
