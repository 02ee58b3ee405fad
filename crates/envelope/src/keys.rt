// Keys of destinations, to see which is the first that equals an earlier one.
ghost use Rattle.std.specs.Prelude.{◌≡◌, ◌<◌, ◌≤◌, eqb};
ghost use Rattle.lists.specs.Places.{element_at, first_below, repeat_at};
ghost use Rattle.envelope.specs.Refusal.{most_destinations};

// Whether the key at i is that of an earlier place.
fn seen(keys: &[u32; 63], i: usize) -> bool
    requires { i < most_destinations }
    ensures { result ≡ repeat_at eqb (element_at 0 keys.now) i }
{
    lists::holds(&keys[..i], keys[i])
}

// The first of the first n keys that is that of an earlier place, or n.
pub fn first_seen(keys: &[u32; 63], n: u8) -> u8
    requires { n ≤ most_destinations }
    ensures { result ≡ first_below (repeat_at eqb (element_at 0 keys.now)) n }
{
    for i in 0..n {
        if seen(keys, i as usize) {
            return i;
        }
    }
    n
}
