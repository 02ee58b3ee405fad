// A tick takes one from the count of each open leg, where that leg stands: `tick_leg` takes it by `&mut`, over two functions by value.
#![tactic(auto)]

ghost use Rattle.std.specs.Prelude.{◌≡◌, ◌≤◌};
ghost use Rattle.refusal.specs.Numbers.{Answers};
ghost use Rattle.ledger_tick.specs.Tick.{times_out, ticked_leg, tick_answer, tick_of};
ghost use Rattle.ledger_tick.specs.Private.{ticked_first};
ghost use Rattle.ledger.specs.Rules.{most_legs};

use ledger::{Ledger, Leg, Standing, is_open, obeys, with_standing};
use refusal::Refusal;

// What a tick of the first legs gives: the legs, and how many timed out.
#[derive(Clone, Copy)]
pub struct TickedLegs {
    pub legs: [Leg; 128],
    pub ended: usize,
}

// What tick gives: the ledger after it, and how many legs timed out in this tick.
#[derive(Clone, Copy)]
pub struct Ticked {
    pub ledger: Ledger,
    pub ended: u8,
}

// Whether the leg times out in the next tick.
fn times_out(g: Leg) -> bool
    ensures { result ≡ times_out g }
{
    if !is_open(g.standing) {
        return false;
    }
    g.ticks <= 1
}

// The leg after a tick.
fn ticked_leg(g: Leg) -> Leg
    ensures { result ≡ ticked_leg g }
{
    if !is_open(g.standing) {
        return g;
    }
    if g.ticks <= 1 {
        return with_standing(g, 0, Standing::TimedOut);
    }
    with_standing(g, g.ticks - 1, g.standing)
}

// Takes one from the leg's count; says whether the leg timed out in this tick.
pub fn tick_leg(leg: &mut Leg) -> bool
    ensures { (result ≡ times_out leg.old) × (leg.new ≡ ticked_leg leg.old) }
{
    let g = *leg;
    *leg = ticked_leg(g);
    times_out(g)
}

// The first n legs are ticked where they stand.
fn tick_first(legs: [Leg; 128], n: usize) -> TickedLegs
    requires { n ≤ most_legs }
    ensures { result ≡ ticked_first legs n }
{
    let mut m = legs;
    let mut ended: usize = 0;
    for leg in &mut m[..n] {
        ended += tick_leg(leg) as usize;
    }
    TickedLegs { legs: m, ended }
}

// One tick for every leg: 60 the rules.
pub fn tick(l: Ledger) -> Result<Ticked, Refusal>
    ensures value { Answers result (tick_of l).refusal (record { ledger = (tick_of l).ledger; ended = (tick_of l).ended }) }
    ensures answer { tick_answer l result ≡ tick_of l }
{
    if !obeys(l) {
        return Err(Refusal::BadLedger);
    }
    let t = tick_first(l.legs, l.count as usize);
    let legs = t.legs;
    Ok(Ticked {
        ended: t.ended as u8,
        ledger: Ledger { legs, ..l },
    })
}
