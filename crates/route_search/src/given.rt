// The least route after a given one.
ghost use Rattle.std.specs.Prelude.{◌≡◌, ◌+◌, ◌-◌, ◌^◌, ◌<◌, drop};
ghost use Rattle.std.specs.Int.Bits.{bit_and, bit_xor};
ghost use Rattle.chart.specs.Values.{most_links};
ghost use Rattle.route.specs.All.{next_of};
ghost use Rattle.route_links.specs.Private.{routes_on, Standing};
ghost use Rattle.refusal.specs.Numbers.{Answers};
ghost use Rattle.route_search.specs.Private.{found_at, found_route};

use crate::Route;
use crate::walking::try_links;
use chart::MOST_LINKS;
use refusal::Refusal;
use route_ahead::ahead;
use route_links::{GOAL, OUT_ROW, SUM_ROW, TABLE_SIZE};

// Of these links those after place i.
fn after(links: u64, i: u64) -> u64
    requires { i < most_links }
    ensures { result ≡ bit_xor links (bit_and links (2 ^ (i + 1) - 1)) }
{
    let low = (1u64 << (i + 1)) - 1;
    links ^ (links & low)
}

// The least route on from the node f after r, whose first d links led there: 43 where there is none, 41 where r is no route from its place d on.
pub fn later(t: &[u64; TABLE_SIZE], r: &[u8], f: u64, gone: u64, d: usize) -> Result<Route, Refusal>
    requires { Standing t.now f gone d }
    ensures { Answers result (found_at d (next_of (routes_on t.now f gone) (drop d r.now))).refusal (found_route (found_at d (next_of (routes_on t.now f gone) (drop d r.now)))) }
{
    let over = r.len() <= d;
    let here = f == t[GOAL];
    if over & here {
        return Err(Refusal::NoRoute);
    }
    if over | here {
        return Err(Refusal::BadRoute);
    }
    let b = r[d];
    if MOST_LINKS <= b {
        return Err(Refusal::BadRoute);
    }
    let i = b as u64;
    let k = f as usize;
    let out = t[OUT_ROW + k];
    let links = out ^ (out & gone);
    if (links >> i) % 2 != 1 {
        return Err(Refusal::BadRoute);
    }
    let then = gone | t[k] | (1u64 << (48 + f));
    match later(t, r, t[SUM_ROW + i as usize] - f, then, d + 1) {
        Ok(mut w) => {
            w.links[d] = b;
            Ok(w)
        }
        Err(refusal) => {
            if refusal != Refusal::NoRoute {
                return Err(refusal);
            }
            let c = ahead(t, then, after(links, i));
            try_links(t, f, then, c, d).ok_or(Refusal::NoRoute)
        }
    }
}
