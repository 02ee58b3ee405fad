// A ledger put back into its image after a call.
ghost use Rattle.std.specs.Prelude.{◌≡◌, ◌≤◌};
ghost use Rattle.refusal.specs.Numbers.{number_in};
ghost use Rattle.ledger_image.specs.Ledger.{with_ledger, ledger_after};
ghost use Rattle.ledger.specs.Rules.{most_legs};

use crate::legs::leg_bytes;
use crate::{LEG_SIZE, LEGS_START};
use ledger::{Ledger, MOST_LEGS};
use refusal::Refusal;

// The count and the first n legs are written.
fn put_legs(b: &mut [u8], l: Ledger, n: u8)
    requires { n ≤ most_legs }
    ensures { b.new ≡ with_ledger b.old l n }
{
    buffer::put_all(b, 0, &[l.count]);
    for (i, g) in l.legs[..n as usize].iter().enumerate() {
        buffer::put_all(b, LEGS_START + LEG_SIZE * i, &leg_bytes(*g));
    }
}

// After a call that gave this answer and this ledger: a refusal leaves the image, else the first n legs are written, at most 128. Gives the number.
pub fn put_back(b: &mut [u8], answer: Result<(), Refusal>, l: Ledger, n: u8) -> u8
    ensures { (result ≡ number_in answer) × (b.new ≡ ledger_after b.old (number_in answer) l n) }
{
    if let Err(refusal) = answer {
        return refusal.number();
    }
    put_legs(b, l, n.min(MOST_LEGS));
    0
}
