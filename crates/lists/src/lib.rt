// Places, lists and refusals: what all the other crates are described with. Definitions in specs/, laws in proofs/, and one search.
#![tactic(auto)]

ghost use Rattle.std.specs.Prelude.{◌≡◌};
ghost use Rattle.std.specs.List.{list_any};

// Whether an element of a list is this one. No early return, so the compiler compares several at once.
pub fn holds<T: Copy + Eq>(list: &[T], x: T) -> bool
    ensures { result ≡ list_any (T.eq x) list.now }
{
    let mut found = false;
    for y in list {
        found |= x == *y;
    }
    found
}
