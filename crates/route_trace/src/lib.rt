// The trace of a chart (document 01, "Routes and their order"; document 02, Ten): the least route that its question asks for, the least one after a given one,
// and all of them.
#![tactic(auto)]

ghost use Rattle.std.specs.Prelude.{◌≡◌, length};
ghost use Rattle.lists.specs.Refusals.{unless_refused};
ghost use Rattle.refusal.specs.Numbers.{Answers};
ghost use Rattle.route_search.specs.Answers.{traced, traced_refusal, traced_length, first_route, next_route};
ghost use Rattle.route_list.specs.Listing.{list_answer, list_after, listing_of, listed};
ghost use Rattle.chart_net.specs.Net.{routes_of};
ghost use Rattle.route_trace.specs.Trace.{one_number, first_refusal_of, next_refusal_of, list_refusal_of, trace_first, trace_next, trace_list, trace_slots};
ghost use Rattle.route_trace.specs.Private.{first_known_refusal, next_known_refusal, list_known_refusal, first_known, next_known};
ghost use Rattle.chart_net.specs.Private.{array_routes};

use chart::Chart;
use chart_net::{asked_of, ends_of, passages_for};
use chart_refuse::chart_refusal;
use refusal::Refusal;
use route_list::Listed;
use route_search::{first_route, next_route};

// Document 01's one number: the route's length, or the refusal.
pub fn one_number(t: Result<u8, Refusal>) -> u8
    ensures { result ≡ one_number (traced t) }
{
    match t {
        Ok(n) => n,
        Err(refusal) => refusal.number(),
    }
}

// The least route over what is kept of a chart, which is not tested, and its length: the trace of one that is known to be right.
pub fn first_known(c: Chart, buf: &mut [u8]) -> Result<u8, Refusal>
    ensures value { Answers result (first_known_refusal c buf.old) (length (first_route (array_routes c))) }
    ensures bytes { buf.new ≡ (first_known c buf.old).bytes }
    ensures answer { traced result ≡ (first_known c buf.old).answer }
    ensures refusal { traced_refusal (traced result) ≡ first_known_refusal c buf.old }
    ensures length { traced_length (traced result) ≡ unless_refused (first_known_refusal c buf.old) (length (first_route (array_routes c))) 0 }
{
    let links = c.links;
    let ends = ends_of(c);
    let ways = passages_for(links);
    let asked = asked_of(c);
    first_route(ends, ways, links.count as usize, asked.from, asked.to, buf)
}

// The least one after the route in the first `given` bytes of the buffer, likewise.
pub fn next_known(c: Chart, buf: &mut [u8], given: usize) -> Result<u8, Refusal>
    ensures value { Answers result (next_known_refusal c buf.old given) (length (next_route (array_routes c) buf.old given)) }
    ensures bytes { buf.new ≡ (next_known c buf.old given).bytes }
    ensures answer { traced result ≡ (next_known c buf.old given).answer }
    ensures refusal { traced_refusal (traced result) ≡ next_known_refusal c buf.old given }
    ensures length { traced_length (traced result) ≡ unless_refused (next_known_refusal c buf.old given) (length (next_route (array_routes c) buf.old given)) 0 }
{
    let links = c.links;
    let ends = ends_of(c);
    let ways = passages_for(links);
    let asked = asked_of(c);
    next_route(
        ends,
        ways,
        links.count as usize,
        asked.from,
        asked.to,
        buf,
        given,
    )
}

// All routes over what is kept of a chart, likewise.
pub fn list_known(c: Chart, out: &mut [u8]) -> Result<Listed, Refusal>
    ensures value { Answers result (list_known_refusal c (length out.old)) (listing_of (list_answer (list_known_refusal c (length out.old)) (array_routes c) (length out.old))) }
    ensures bytes { out.new ≡ list_after (list_known_refusal c (length out.old)) (array_routes c) out.old }
    ensures answer { listed result ≡ list_answer (list_known_refusal c (length out.old)) (array_routes c) (length out.old) }
{
    let links = c.links;
    let ends = ends_of(c);
    let ways = passages_for(links);
    let asked = asked_of(c);
    route_list::list(ends, ways, links.count as usize, asked.from, asked.to, out)
}

// The least route, written into the buffer, and its length; or a refusal, which changes nothing.
pub fn first(c: Chart, buf: &mut [u8]) -> Result<u8, Refusal>
    ensures value { Answers result (first_refusal_of c buf.old) (length (first_route (routes_of c))) }
    ensures bytes { buf.new ≡ (trace_first c buf.old).bytes }
    ensures answer { traced result ≡ (trace_first c buf.old).answer }
    ensures refusal { traced_refusal (traced result) ≡ first_refusal_of c buf.old }
    ensures length { traced_length (traced result) ≡ unless_refused (first_refusal_of c buf.old) (length (first_route (routes_of c))) 0 }
{
    chart_refusal(c)?;
    first_known(c, buf)
}

// The least route after the one in the first `given` bytes of the buffer, written over it, and its length; or a refusal, which changes nothing.
pub fn next(c: Chart, buf: &mut [u8], given: usize) -> Result<u8, Refusal>
    ensures value { Answers result (next_refusal_of c buf.old given) (length (next_route (routes_of c) buf.old given)) }
    ensures bytes { buf.new ≡ (trace_next c buf.old given).bytes }
    ensures answer { traced result ≡ (trace_next c buf.old given).answer }
    ensures refusal { traced_refusal (traced result) ≡ next_refusal_of c buf.old given }
    ensures length { traced_length (traced result) ≡ unless_refused (next_refusal_of c buf.old given) (length (next_route (routes_of c) buf.old given)) 0 }
{
    chart_refusal(c)?;
    next_known(c, buf, given)
}

// All routes, as many as the buffer has room for; or a refusal, which changes nothing.
pub fn list(c: Chart, out: &mut [u8]) -> Result<Listed, Refusal>
    ensures value { Answers result (list_refusal_of c (length out.old)) (listing_of (trace_list c (length out.old))) }
    ensures bytes { out.new ≡ trace_slots c out.old }
    ensures answer { listed result ≡ trace_list c (length out.old) }
{
    chart_refusal(c)?;
    list_known(c, out)
}
