// Clear removes a settled leg.
#![tactic(auto)]

ghost use Rattle.std.specs.Prelude.{◌≡◌, ◌≤◌, ◌<◌};
ghost use Rattle.refusal.specs.Numbers.{Answers};
ghost use Rattle.ledger_clear.specs.Clear.{close_up, clear_of};
ghost use Rattle.ledger.specs.Rules.{most_legs};
ghost use Rattle.ledger.specs.Outcome.{outcome};

use ledger::{Ledger, is_open, no_leg, obeys};
use refusal::Refusal;

// The ledger without the leg at a place; those after it move down one, leg by leg: of legs copied within the row at once the compiler makes a call of
// memmove, which C's linker would have to find.
fn close_up(l: Ledger, place: usize) -> Ledger
    requires { (l.count ≤ most_legs) × (place < l.count) }
    ensures { result ≡ close_up l place }
{
    let last = l.count - 1;
    let mut m = l;
    for i in place..last as usize {
        m.legs[i] = m.legs[i + 1];
    }
    m.legs[last as usize] = no_leg();
    m.count = last;
    m
}

// The ledger without the settled leg at a place, or 60 the rules, 65 no settled leg there.
pub fn clear(l: Ledger, place: usize) -> Result<Ledger, Refusal>
    ensures value { Answers result (clear_of l place).refusal (clear_of l place).ledger }
    ensures answer { outcome l result ≡ clear_of l place }
{
    if !obeys(l) {
        return Err(Refusal::BadLedger);
    }
    if l.count as usize <= place {
        return Err(Refusal::NoSettledLeg);
    }
    if is_open(l.legs[place].standing) {
        return Err(Refusal::NoSettledLeg);
    }
    let m = close_up(l, place);
    Ok(m)
}
