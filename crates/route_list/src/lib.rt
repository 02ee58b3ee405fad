// The lister (document 02, Ten): all routes in one walk over the links kept beside their nodes, each in a slot of a lent buffer.
#![tactic(auto)]

ghost use Rattle.std.specs.Prelude.{◌≡◌, length};
ghost use Rattle.refusal.specs.Numbers.{Answers};
ghost use Rattle.route_search.specs.Private.{routes_over};
ghost use Rattle.route_list.specs.Listing.{slot_room, list_answer, list_after, listing_of, listed};
ghost use Rattle.route_list.specs.Private.{list_refusal_over};

use chart::{MOST_LINKS, MOST_NODES};
use refusal::Refusal;
use route_ahead::reaches;
use route_links::links_by_node;
use walking::walk_on;

mod walking;

pub const SLOT_SIZE: usize = 16;

pub const MOST_SLOTS: usize = 4095;

// How many routes were listed, and whether others follow.
#[derive(Clone, Copy)]
pub struct Listed {
    pub count: usize,
    pub more: bool,
}

// The slots that a buffer has room for.
fn slot_room(n: usize) -> usize
    ensures { result ≡ slot_room n }
{
    MOST_SLOTS.min(n / SLOT_SIZE)
}

// Lists the routes from one node place to another, in order; or a refusal, which changes nothing.
pub fn list(
    ends: [[u8; 2]; 48],
    ways: [u8; 48],
    links: usize,
    from: u8,
    to: u8,
    out: &mut [u8],
) -> Result<Listed, Refusal>
    ensures value { Answers result (list_refusal_over ends ways links from to (length out.old)) (listing_of (list_answer (list_refusal_over ends ways links from to (length out.old)) (routes_over ends ways links from to) (length out.old))) }
    ensures bytes { out.new ≡ list_after (list_refusal_over ends ways links from to (length out.old)) (routes_over ends ways links from to) out.old }
    ensures answer { listed result ≡ list_answer (list_refusal_over ends ways links from to (length out.old)) (routes_over ends ways links from to) (length out.old) }
{
    if (MOST_LINKS as usize) < links {
        return Err(Refusal::ChartCrowd);
    }
    if MOST_NODES <= from {
        return Err(Refusal::ChartStranger);
    }
    let room = slot_room(out.len());
    if room == 0 {
        return Err(Refusal::NoRouteRoom);
    }
    let t = links_by_node(ends, ways, links, to);
    if !reaches(&t, from) {
        return Err(Refusal::NoRoute);
    }
    let n = walk_on(
        &t,
        from as u64,
        0,
        0,
        [0u8; 16],
        &mut out[..SLOT_SIZE * room],
        0,
    );
    Ok(Listed {
        count: n.min(room),
        more: room < n,
    })
}
