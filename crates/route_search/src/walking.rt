// The two steps that call on each other: going by a link of a node, and walking on from its far end. With each node met fewer are left.
ghost use Rattle.std.specs.Prelude.{◌≡◌};
ghost use Rattle.route.specs.All.{first_of};
ghost use Rattle.route_links.specs.Private.{routes_on, routes_by, OnRoute, Choosing};
ghost use Rattle.route_search.specs.Private.{found_of, found_at};

use crate::Route;
use route_ahead::ahead_of_some;
use route_links::{GOAL, OUT_ROW, SUM_ROW, TABLE_SIZE};

// The least route on from the node at by one of these links; d links come before it. Each of them begins a route, so that the lowest is taken.
#[cycle(try_links_walk_on)]
pub fn try_links(t: &[u64; TABLE_SIZE], at: u64, gone: u64, links: u64, d: usize) -> Option<Route>
    requires { Choosing t.now at gone links d }
    ensures { found_of result ≡ found_at d (first_of (routes_by t.now at gone links)) }
{
    if links == 0 {
        return None;
    }
    let i = links.trailing_zeros() as usize;
    let mut r = walk_on(t, t[SUM_ROW + i] - at, gone, d + 1)?;
    r.links[d] = i as u8;
    Some(r)
}

// The least route on from the node f, which is not met yet; d links come before it.
#[cycle(try_links_walk_on)]
pub fn walk_on(t: &[u64; TABLE_SIZE], f: u64, gone: u64, d: usize) -> Option<Route>
    requires { OnRoute t.now f gone d }
    ensures { found_of result ≡ found_at d (first_of (routes_on t.now f gone)) }
{
    if f == t[GOAL] {
        return Some(Route {
            len: d,
            links: [0u8; 15],
        });
    }
    let k = f as usize;
    let links = t[OUT_ROW + k];
    let then = gone | t[k] | (1u64 << (48 + f));
    let c = ahead_of_some(t, then, links ^ (links & gone));
    try_links(t, f, then, c, d)
}
