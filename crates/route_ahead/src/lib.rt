// The look ahead (document 02, Eleven): which links of a node begin a route, with some nodes met. A flood goes backwards from the goal over the links that
// lead into each node, through nodes that are not met; one flood answers for all links of a node.
#![tactic(auto)]

ghost use Rattle.route_ahead.specs.Ahead.{LooksAhead, LooksOn, Reaches};

use chart::MOST_NODES;
use route_links::{FROM_ROW, GOAL, OUT_ROW, TABLE_SIZE};

// Of these links, which lead on from a node that is met, those that begin a route: they lead to a node that the flood comes to.
pub fn ahead(t: &[u64; TABLE_SIZE], gone: u64, links: u64) -> u64
    ensures { LooksAhead t.now gone links result }
{
    if MOST_NODES as u64 <= t[GOAL] {
        return 0;
    }
    let goal = 1u16 << t[GOAL];
    let mut front = goal;
    let mut seen = goal | (gone >> 48) as u16;
    let mut live = 0u64;
    let mut left = MOST_NODES;
    while (front != 0) & (0 < left) {
        let n = front.trailing_zeros() as usize;
        live |= t[n];
        if links & live == links {
            return links;
        }
        let from = (t[FROM_ROW + n] % 65536) as u16;
        let new = from ^ (from & seen);
        front = (front ^ (1u16 << n)) | new;
        seen |= new;
        left -= 1;
    }
    links & live
}

// The same, where it is known that one of them does: no flood is needed where there is but one.
pub fn ahead_of_some(t: &[u64; TABLE_SIZE], gone: u64, links: u64) -> u64
    ensures { LooksOn t.now gone links result }
{
    if links == 0 {
        return 0;
    }
    if links & (links - 1) == 0 {
        return links;
    }
    ahead(t, gone, links)
}

// Whether a route leads from a node to the goal, no other node being met.
pub fn reaches(t: &[u64; TABLE_SIZE], from: u8) -> bool
    ensures { Reaches t.now from result }
{
    if from as u64 == t[GOAL] {
        return true;
    }
    if MOST_NODES <= from {
        return false;
    }
    let k = from as usize;
    ahead(t, t[k] | (1u64 << (48 + k)), t[OUT_ROW + k]) != 0
}
