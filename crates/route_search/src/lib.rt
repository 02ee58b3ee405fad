// The search for routes over what the trace keeps by value (document 01, "Routes and their order"): the two ends of each link as node places,
// and the way each link is passed. It goes by the links of a node, which are kept beside it. It knows no chart: any arrays get an answer.
#![tactic(auto)]

ghost use Rattle.std.specs.Prelude.{◌≡◌, ◌≤◌, length};
ghost use Rattle.lists.specs.Refusals.{unless_refused};
ghost use Rattle.refusal.specs.Numbers.{Answers};
ghost use Rattle.route_search.specs.Answers.{longest_route, traced, traced_refusal, traced_length, first_route, next_route};
ghost use Rattle.route_search.specs.Private.{route_found, handed_over, first_over, next_over, first_refusal_over, next_refusal_over, routes_over};

use chart::{MOST_LINKS, MOST_NODES};
use given::later;
use refusal::Refusal;
use route_ahead::reaches;
use route_links::links_by_node;
use walking::walk_on;

mod given;
mod walking;

pub const LONGEST_ROUTE: usize = 15;

// A route, of which the links from some place on are filled in, with its whole length.
#[derive(Clone, Copy)]
pub struct Route {
    pub len: usize,
    pub links: [u8; 15],
}

// Writes the route that was found, and gives its length.
fn hand_over(r: Route, buf: &mut [u8]) -> u8
    requires counted { r.len ≤ longest_route }
    requires whole { length r.links ≡ longest_route }
    ensures { (result ≡ r.len) × (buf.new ≡ (handed_over (route_found r) buf.old).bytes) }
{
    buffer::put_all(buf, 0, &r.links[..r.len]);
    r.len as u8
}

// The least route from one node place to another, written into the buffer, and its length; or a refusal, which changes nothing.
pub fn first_route(
    ends: [[u8; 2]; 48],
    ways: [u8; 48],
    links: usize,
    from: u8,
    to: u8,
    buf: &mut [u8],
) -> Result<u8, Refusal>
    ensures value { Answers result (first_refusal_over ends ways links from to buf.old) (length (first_route (routes_over ends ways links from to))) }
    ensures bytes { buf.new ≡ (first_over ends ways links from to buf.old).bytes }
    ensures answer { traced result ≡ (first_over ends ways links from to buf.old).answer }
    ensures refusal { traced_refusal (traced result) ≡ first_refusal_over ends ways links from to buf.old }
    ensures length { traced_length (traced result) ≡ unless_refused (first_refusal_over ends ways links from to buf.old) (length (first_route (routes_over ends ways links from to))) 0 }
{
    if (MOST_LINKS as usize) < links {
        return Err(Refusal::ChartCrowd);
    }
    if MOST_NODES <= from {
        return Err(Refusal::ChartStranger);
    }
    if buf.len() < LONGEST_ROUTE {
        return Err(Refusal::NoRouteRoom);
    }
    let t = links_by_node(ends, ways, links, to);
    if !reaches(&t, from) {
        return Err(Refusal::NoRoute);
    }
    let found = walk_on(&t, from as u64, 0, 0).ok_or(Refusal::NoRoute)?;
    Ok(hand_over(found, buf))
}

// The least route after the one in the first `given` bytes of the buffer, written over it, and its length; or a refusal, which changes nothing.
pub fn next_route(
    ends: [[u8; 2]; 48],
    ways: [u8; 48],
    links: usize,
    from: u8,
    to: u8,
    buf: &mut [u8],
    given: usize,
) -> Result<u8, Refusal>
    ensures value { Answers result (next_refusal_over ends ways links from to buf.old given) (length (next_route (routes_over ends ways links from to) buf.old given)) }
    ensures bytes { buf.new ≡ (next_over ends ways links from to buf.old given).bytes }
    ensures answer { traced result ≡ (next_over ends ways links from to buf.old given).answer }
    ensures refusal { traced_refusal (traced result) ≡ next_refusal_over ends ways links from to buf.old given }
    ensures length { traced_length (traced result) ≡ unless_refused (next_refusal_over ends ways links from to buf.old given) (length (next_route (routes_over ends ways links from to) buf.old given)) 0 }
{
    if (MOST_LINKS as usize) < links {
        return Err(Refusal::ChartCrowd);
    }
    if MOST_NODES <= from {
        return Err(Refusal::ChartStranger);
    }
    if buf.len() < LONGEST_ROUTE {
        return Err(Refusal::NoRouteRoom);
    }
    if LONGEST_ROUTE < given {
        return Err(Refusal::BadRoute);
    }
    let r = &buf[..given];
    let t = links_by_node(ends, ways, links, to);
    let found = later(&t, r, from as u64, 0, 0)?;
    Ok(hand_over(found, buf))
}
