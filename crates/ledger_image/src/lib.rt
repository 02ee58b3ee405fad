// The image of a ledger, 1,921 bytes: whether it can be read, the ledger in it, and a ledger put back into it after a call.
#![tactic(auto)]

ghost use Rattle.std.specs.Prelude.{◌≡◌, ◌≤◌, length};
ghost use Rattle.lists.specs.Places.{any_below};
ghost use Rattle.ledger_image.specs.Ledger.{ledger_size, stray_leg_held, readable_ledger, ledger_of};
ghost use Rattle.ledger.specs.Rules.{most_legs};

use ledger::{Ledger, MOST_LEGS};
use legs::{leg_in, stray_leg};

mod back;
mod legs;

pub use back::put_back;

const LEDGER_SIZE: usize = 1921;

// Where the legs begin, and the bytes of each.
const LEGS_START: usize = 1;

const LEG_SIZE: usize = 15;

// Whether one of the first n places holds bytes that are no leg's.
fn any_stray(b: &[u8], n: usize) -> bool
    requires { (n ≤ most_legs) × (ledger_size ≤ length b.now) }
    ensures { result ≡ any_below (stray_leg_held b.now) n }
{
    for i in 0..n {
        if stray_leg(b, LEGS_START + LEG_SIZE * i) {
            return true;
        }
    }
    false
}

// Whether the image of a ledger can be read.
fn readable_ledger(b: &[u8]) -> bool
    ensures { result ≡ readable_ledger b.now }
{
    if b.len() < LEDGER_SIZE {
        return false;
    }
    let n = b[0];
    if MOST_LEGS < n {
        return false;
    }
    !any_stray(b, n as usize)
}

// The ledger in an image, with no leg at the places past the count; where it can't be read, one with a leg too many.
pub fn ledger_of(b: &[u8]) -> Ledger
    ensures { result ≡ ledger_of b.now }
{
    let mut legs = [ledger::no_leg(); 128];
    if !readable_ledger(b) {
        return Ledger {
            legs,
            count: MOST_LEGS + 1,
        };
    }
    let count = b[0];
    for i in 0..count as usize {
        legs[i] = leg_in(b, LEGS_START + LEG_SIZE * i);
    }
    Ledger { legs, count }
}
