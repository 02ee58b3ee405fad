// The route lines of the printed sheet (document 01, "The printed sheet"), from the slots of the lister.
#![tactic(auto)]

ghost use Rattle.std.specs.Prelude.{drop};
ghost use Rattle.text.specs.Private.{Laid};
ghost use Rattle.sheet_routes.specs.RouteLines.{most_routes, places_text, route_line, end_line, more_line, list_text};
ghost use Rattle.sheet_routes.specs.Private.{routes_held, routes_from, Slotted, lines_text, listed_text};

use route_list::{Listed, SLOT_SIZE, list};
use text::{put_byte, put_bytes, put_number};

// The most routes that a sheet lists.
pub const MOST_ROUTES: usize = 1000;

const FEW_ROUTES: usize = 32;

// Each place of a route but its first, after a blank.
fn put_places(out: &mut [u8], at: usize, r: &[u8]) -> usize
    ensures { Laid out.old at (places_text (drop 1 r.now)) out.new result }
{
    let mut next = at;
    for i in 1..r.len() {
        next = put_byte(out, next, b' ');
        next = put_number(out, next, r[i] as usize);
    }
    next
}

// The line of a route.
fn put_route(out: &mut [u8], at: usize, r: &[u8]) -> usize
    ensures { Laid out.old at (route_line r.now) out.new result }
{
    if r.is_empty() {
        return put_bytes(out, at, b"-\n");
    }
    let n1 = put_number(out, at, r[0] as usize);
    let n2 = put_places(out, n1, r);
    put_byte(out, n2, b'\n')
}

// The last line of a whole list.
fn put_last(out: &mut [u8], at: usize) -> usize
    ensures { Laid out.old at end_line out.new result }
{
    put_bytes(out, at, b"end\n")
}

// The last line of a list that goes on.
fn put_more(out: &mut [u8], at: usize) -> usize
    ensures { Laid out.old at more_line out.new result }
{
    put_bytes(out, at, b"more\n")
}

// The lines of the routes in the first n slots.
fn put_slots(out: &mut [u8], at: usize, slots: &[u8], n: usize) -> usize
    requires { Slotted slots.now n }
    ensures { Laid out.old at (lines_text (routes_from slots.now 0 n)) out.new result }
{
    let mut next = at;
    for k in 0..n {
        let route = SLOT_SIZE * k + 1;
        let d = slots[SLOT_SIZE * k] as usize;
        next = put_route(out, next, &slots[route..route + d]);
    }
    next
}

// The lines of what was listed, and the last line.
fn put_listed(out: &mut [u8], at: usize, slots: &[u8], l: Listed) -> usize
    requires { Slotted slots.now l.count }
    ensures { Laid out.old at (listed_text slots.now l) out.new result }
{
    let next = put_slots(out, at, slots, l.count);
    if l.more {
        return put_more(out, next);
    }
    put_last(out, next)
}

// A line for each route, at most 1,000, and the last line.
pub fn put_routes(
    out: &mut [u8],
    at: usize,
    ends: [[u8; 2]; 48],
    ways: [u8; 48],
    links: usize,
    from: u8,
    to: u8,
) -> usize
    ensures { Laid out.old at (list_text most_routes (routes_held ends ways links from to)) out.new result }
{
    // A refusal, as where there is no route, lists none.
    let none = Listed {
        count: 0,
        more: false,
    };
    // Most charts have few routes, and a small buffer is soon made.
    let mut few = [0u8; SLOT_SIZE * FEW_ROUTES];
    let l = list(ends, ways, links, from, to, &mut few).unwrap_or(none);
    if !l.more {
        return put_listed(out, at, &few, l);
    }
    let mut slots = [0u8; SLOT_SIZE * MOST_ROUTES];
    let l = list(ends, ways, links, from, to, &mut slots).unwrap_or(none);
    put_listed(out, at, &slots, l)
}
