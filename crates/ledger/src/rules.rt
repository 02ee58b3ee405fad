// Whether a ledger obeys its rules.
ghost use Rattle.std.specs.Prelude.{◌≡◌};
ghost use Rattle.ledger.specs.Rules.{is_open, is_open_leg, leg_obeys, obeys};

use crate::keys::{leg_key, repeated};
use crate::{Ledger, Leg, Standing};
use address::{Address, LARGEST_SEQ, Seq};

pub const MOST_LEGS: u8 = 128;

// Whether a standing is open.
pub fn is_open(s: Standing) -> bool
    ensures { result ≡ is_open s }
{
    matches!(s, Standing::Open | Standing::Waiting)
}

// Whether the leg is open, and has this source, this destination and this sequence number.
pub fn is_open_leg(g: Leg, source: Address, destination: Address, seq: Seq) -> bool
    ensures { result ≡ is_open_leg source destination seq g }
{
    is_open(g.standing)
        & address::same_address(g.source, source)
        & address::same_address(g.destination, destination)
        & (g.seq.0 == seq.0)
}

// Whether an open leg has ticks left and a settled one none, and the addresses and the sequence number are in range.
fn leg_obeys(g: Leg) -> bool
    ensures { result ≡ leg_obeys g }
{
    (is_open(g.standing) == (0 < g.ticks))
        & address::in_range(g.source)
        & address::in_range(g.destination)
        & (g.seq.0 <= LARGEST_SEQ)
}

// Whether the ledger obeys its rules: each leg is right, and no two of their keys are alike.
pub fn obeys(l: Ledger) -> bool
    ensures { result ≡ obeys l }
{
    if MOST_LEGS < l.count {
        return false;
    }
    let n = l.count as usize;
    let mut keys = [0u64; 128];
    for (i, g) in l.legs[..n].iter().enumerate() {
        if !leg_obeys(*g) {
            return false;
        }
        keys[i] = leg_key(*g);
    }
    !repeated(&keys, n)
}
