// An answer settles the open leg that it names, or marks it as waiting.
#![tactic(auto)]

ghost use Rattle.std.specs.Prelude.{◌≡◌, true, cond, Some, None};
ghost use Rattle.lists.specs.Places.{any_below};
ghost use Rattle.refusal.specs.Numbers.{Answers};
ghost use Rattle.ledger_answer.specs.Answer.{standing_for, settled, waits, answered, answered_at, answered_place, answer_of};
ghost use Rattle.ledger.specs.Rules.{obeys};
ghost use Rattle.ledger.specs.Outcome.{outcome};

use address::{Address, Seq};
use ledger::{Ledger, Leg, Standing, is_open_leg, obeys, with_standing};
use refusal::Refusal;

// The reason set "alerter" (appendix A, <reason_code_set>), and its code "wait_ack" (D.1).
const ALERTER: u8 = 2;

const WAIT_ACK: u8 = 13;

#[derive(Clone, Copy)]
pub enum Reply {
    Ack,
    Nak(u8, u8),
}

// The standing that a reply gives.
fn standing_for(r: Reply) -> Standing
    ensures { result ≡ standing_for r }
{
    match r {
        Reply::Ack => Standing::Acknowledged,
        Reply::Nak(set, code) => Standing::Refused(set, code),
    }
}

// The leg, settled by the reply.
fn settled(g: Leg, r: Reply) -> Leg
    ensures { result ≡ settled r g }
{
    with_standing(g, 0, standing_for(r))
}

// Whether the reply says wait.
fn waits(r: Reply) -> bool
    ensures { result ≡ waits r }
{
    match r {
        Reply::Ack => false,
        Reply::Nak(set, code) => (set == ALERTER) & (code == WAIT_ACK),
    }
}

// The leg as the reply leaves it.
fn answered(g: Leg, r: Reply) -> Leg
    ensures { result ≡ answered r g }
{
    if waits(r) {
        return with_standing(g, g.ticks, Standing::Waiting);
    }
    settled(g, r)
}

// The place of the open leg that an answer names. The newest are looked at first: there is at most one.
fn answered_place(l: Ledger, by: Address, to: Address, seq: Seq) -> Option<usize>
    requires { obeys l ≡ true }
    ensures { result ≡ cond (any_below (answered_at l by to seq) l.count) (Some (answered_place l by to seq)) None }
{
    let n = l.count as usize;
    for i in (0..n).rev() {
        if is_open_leg(l.legs[i], to, by, seq) {
            return Some(i);
        }
    }
    None
}

// `by` answers a message of `to` with this number: the ledger after it, or 60 the rules, 64 no such open leg.
pub fn answer(
    l: Ledger,
    by: Address,
    to: Address,
    seq: Seq,
    reply: Reply,
) -> Result<Ledger, Refusal>
    ensures value { Answers result (answer_of l by to seq reply).refusal (answer_of l by to seq reply).ledger }
    ensures answer { outcome l result ≡ answer_of l by to seq reply }
{
    if !obeys(l) {
        return Err(Refusal::BadLedger);
    }
    let Some(k) = answered_place(l, by, to, seq) else {
        return Err(Refusal::NoOpenLeg);
    };
    let mut m = l;
    m.legs[k] = answered(l.legs[k], reply);
    Ok(m)
}
