// The ledger of legs: what a leg is, what a ledger holds, and whether it obeys its rules. Each call on it has a crate of its own.
#![tactic(auto)]

ghost use Rattle.std.specs.Prelude.{◌≡◌};
ghost use Rattle.ledger.specs.Rules.{no_leg, with_standing};

use address::{Address, Node, Port, Seq};

mod keys;
mod rules;

pub use rules::{MOST_LEGS, is_open, is_open_leg, obeys};

// `Waiting` is an open standing too: the call is being made.
#[derive(Clone, Copy)]
pub enum Standing {
    Open,
    Acknowledged,
    Refused(u8, u8),
    Undeliverable,
    TimedOut,
    Waiting,
}

#[derive(Clone, Copy)]
pub struct Leg {
    pub source: Address,
    pub destination: Address,
    pub seq: Seq,
    pub ticks: u16,
    pub standing: Standing,
}

// The first `count` places hold legs, oldest first. Here, and in what holds a ledger, the larger field stands first: with no gap between fields the compiler makes fewer copies.
#[derive(Clone, Copy)]
pub struct Ledger {
    pub legs: [Leg; 128],
    pub count: u8,
}

// What stands at a place with no leg.
pub fn no_leg() -> Leg
    ensures { result ≡ no_leg }
{
    let a = Address {
        brigade: 0,
        node: Node(0),
        port: Port(0),
    };
    Leg {
        source: a,
        destination: a,
        seq: Seq(0),
        ticks: 0,
        standing: Standing::Open,
    }
}

// The leg with other ticks and another standing.
pub fn with_standing(g: Leg, ticks: u16, standing: Standing) -> Leg
    ensures { result ≡ with_standing g ticks standing }
{
    Leg {
        ticks,
        standing,
        ..g
    }
}
