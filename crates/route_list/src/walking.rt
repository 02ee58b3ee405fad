// The walk that lists: trying the links of a node, and walking on from a link's far end. It counts one route more than there is room for, and then ends.
ghost use Rattle.std.specs.Prelude.{◌≡◌, ◌*◌, ◌<◌, ◌≤◌};
ghost use Rattle.std.proofs.lemmas.List.Edits.{sets};
ghost use Rattle.route_search.specs.Answers.{longest_route};
ghost use Rattle.route_list.specs.Listing.{slot_size};
ghost use Rattle.route_list.specs.Private.{room_in, stow, stow_all, links_in, Cleared, paths_by, paths_on, Walking, Trying};

use crate::SLOT_SIZE;
use route_ahead::ahead_of_some;
use route_links::{GOAL, OUT_ROW, SUM_ROW, TABLE_SIZE};

// Writes the slot at place n.
fn put(out: &mut [u8], n: usize, slot: [u8; 16])
    requires { n < room_in out.old }
    ensures { out.new ≡ sets out.old (slot_size * n) slot }
{
    let at = SLOT_SIZE * n;
    out[at..at + SLOT_SIZE].copy_from_slice(&slot);
}

// The path is a route of d links: writes it at place n, if there is room, and counts it.
fn arrive(d: usize, path: [u8; 16], out: &mut [u8], n: usize) -> usize
    requires room { n ≤ room_in out.old }
    requires depth { d ≤ longest_route }
    requires cleared { Cleared path d }
    ensures { record { bytes = out.new; count = result } ≡ stow (record { bytes = out.old; count = n }) (links_in path d) }
{
    if out.len() / SLOT_SIZE <= n {
        return n + 1;
    }
    let mut slot = path;
    slot[0] = d as u8;
    put(out, n, slot);
    n + 1
}

// Lists the routes that go on from the node at by these links; the path has d links, and n routes are listed.
#[cycle(try_links_walk_on)]
fn try_links(
    t: &[u64; TABLE_SIZE],
    at: u64,
    gone: u64,
    links: u64,
    d: usize,
    path: [u8; 16],
    out: &mut [u8],
    n: usize,
) -> usize
    requires { Trying t.now at gone links d path n out.old }
    ensures { record { bytes = out.new; count = result } ≡ stow_all (record { bytes = out.old; count = n }) (paths_by t.now at gone links path d) }
{
    let mut left = links;
    let mut p = n;
    while left != 0 {
        let i = left.trailing_zeros() as usize;
        let mut then = path;
        then[d + 1] = i as u8;
        p = walk_on(t, t[SUM_ROW + i] - at, gone, d + 1, then, out, p);
        if out.len() / SLOT_SIZE < p {
            return p;
        }
        left ^= 1u64 << i;
    }
    p
}

// Lists the routes on from the node f, which is not met yet.
#[cycle(try_links_walk_on)]
pub fn walk_on(
    t: &[u64; TABLE_SIZE],
    f: u64,
    gone: u64,
    d: usize,
    path: [u8; 16],
    out: &mut [u8],
    n: usize,
) -> usize
    requires { Walking t.now f gone d path n out.old }
    ensures { record { bytes = out.new; count = result } ≡ stow_all (record { bytes = out.old; count = n }) (paths_on t.now f gone path d) }
{
    if f == t[GOAL] {
        return arrive(d, path, out, n);
    }
    let k = f as usize;
    let links = t[OUT_ROW + k];
    let then = gone | t[k] | (1u64 << (48 + f));
    let c = ahead_of_some(t, then, links ^ (links & gone));
    try_links(t, f, then, c, d, path, out, n)
}
