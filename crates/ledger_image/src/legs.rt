// A leg in an image: 15 bytes.
ghost use Rattle.std.specs.Prelude.{◌≡◌, ◌+◌, ◌≤◌, length};
ghost use Rattle.ledger_image.specs.Leg.{standing_bytes, standing_of, stray_standing, leg_bytes, leg_in, stray_leg_in};

use address::Seq;
use ledger::{Leg, Standing};

// The highest number of a standing.
const LAST_STANDING: u8 = 5;

// The standing that three bytes stand for.
fn standing_of(kind: u8, set: u8, code: u8) -> Standing
    ensures { result ≡ standing_of kind set code }
{
    match kind {
        0 => Standing::Open,
        1 => Standing::Acknowledged,
        2 => Standing::Refused(set, code),
        3 => Standing::Undeliverable,
        4 => Standing::TimedOut,
        _ => Standing::Waiting,
    }
}

// Whether three bytes stand for no standing.
fn stray_standing(kind: u8, set: u8, code: u8) -> bool
    ensures { result ≡ stray_standing kind set code }
{
    if LAST_STANDING < kind {
        return true;
    }
    if kind == 2 {
        return false;
    }
    if set != 0 {
        return true;
    }
    code != 0
}

// The leg whose 15 bytes begin at a place.
pub fn leg_in(b: &[u8], at: usize) -> Leg
    requires { at + 15 ≤ length b.now }
    ensures { result ≡ leg_in b.now at }
{
    Leg {
        source: address_bytes::address_in(b, at),
        destination: address_bytes::address_in(b, at + 4),
        seq: Seq(buffer::word_at(b, at + 8)),
        ticks: buffer::word_at(b, at + 10),
        standing: standing_of(b[at + 12], b[at + 13], b[at + 14]),
    }
}

// Whether the 15 bytes that begin at a place are no leg's.
pub fn stray_leg(b: &[u8], at: usize) -> bool
    requires { at + 15 ≤ length b.now }
    ensures { result ≡ stray_leg_in b.now at }
{
    stray_standing(b[at + 12], b[at + 13], b[at + 14])
}

// The three bytes of a standing: its kind, and the set and the code of a refusal.
fn standing_bytes(s: Standing) -> [u8; 3]
    ensures { result ≡ standing_bytes s }
{
    match s {
        Standing::Open => [0, 0, 0],
        Standing::Acknowledged => [1, 0, 0],
        Standing::Refused(set, code) => [2, set, code],
        Standing::Undeliverable => [3, 0, 0],
        Standing::TimedOut => [4, 0, 0],
        Standing::Waiting => [5, 0, 0],
    }
}

// The 15 bytes of a leg.
pub fn leg_bytes(g: Leg) -> [u8; 15]
    ensures { result ≡ leg_bytes g }
{
    let from = address_bytes::address_bytes(g.source);
    let to = address_bytes::address_bytes(g.destination);
    let n = g.seq.0.to_be_bytes();
    let t = g.ticks.to_be_bytes();
    let s = standing_bytes(g.standing);
    [
        from[0], from[1], from[2], from[3], to[0], to[1], to[2], to[3], n[0], n[1], t[0], t[1],
        s[0], s[1], s[2],
    ]
}
