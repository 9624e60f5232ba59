// Anchored rings: queues of ids, doubly linked. Nodes 1 to n are ids and the nodes above n anchors, one for each queue; node 0 is
// unused. `links` holds two words for each node: the next node of node i at i, and the previous one in the second half, at N + i,
// where N is half the length. An anchor that points to itself has an empty ring; the link 0 of an id says that it is in no ring.
#![tactic(auto)]

ghost use Rattle.std.specs.Prelude.{◌≡◌};
ghost use Rattle.memory_rings.specs.Links.{next_of, prev_of, set_next, set_prev, pushed, pulled, left, cleared, first_of, nexts};

// ---- links; what is no node has the link 0, and nothing is written to it

pub fn next(links: &[u32], i: u32) -> u32
    ensures { result ≡ next_of links.now i }
{
    let k = i as usize;
    if k < links.len() / 2 { links[k] } else { 0 }
}

pub fn prev(links: &[u32], i: u32) -> u32
    ensures { result ≡ prev_of links.now i }
{
    let h = links.len() / 2;
    let k = i as usize;
    if k < h { links[h + k] } else { 0 }
}

fn set_next(links: &mut [u32], i: u32, v: u32)
    ensures { links.new ≡ set_next i v links.old }
{
    let k = i as usize;
    if k < links.len() / 2 {
        links[k] = v;
    }
}

fn set_prev(links: &mut [u32], i: u32, v: u32)
    ensures { links.new ≡ set_prev i v links.old }
{
    let h = links.len() / 2;
    let k = i as usize;
    if k < h {
        links[h + k] = v;
    }
}

// ---- queues

// Puts id last in the ring of anchor a.
pub fn push(links: &mut [u32], a: u32, id: u32)
    ensures { links.new ≡ pushed a id links.old }
{
    let t = prev(links, a);
    set_next(links, id, a);
    set_next(links, t, id);
    set_prev(links, id, t);
    set_prev(links, a, id);
}

// Joins the neighbours of id.
fn pull(links: &mut [u32], id: u32)
    ensures { links.new ≡ pulled id links.old }
{
    let n = next(links, id);
    let p = prev(links, id);
    set_next(links, id, 0);
    set_next(links, p, n);
    set_prev(links, id, 0);
    set_prev(links, n, p);
}

// Takes id out of the ring that it is in, if it is in one.
pub fn leave(links: &mut [u32], id: u32)
    ensures { links.new ≡ left id links.old }
{
    if next(links, id) != 0 {
        pull(links, id);
    }
}

// The first of the ring of anchor a, 0 where it is empty.
pub fn first(links: &[u32], a: u32) -> u32
    ensures { result ≡ first_of (nexts links.now) a }
{
    let f = next(links, a);
    if f == a { 0 } else { f }
}

// The node after x: one step of a walk.
pub fn follow(links: &[u32], x: u32) -> u32
    ensures { result ≡ next_of links.now x }
{
    next(links, x)
}

// Makes the ring of anchor a empty.
pub fn clear(links: &mut [u32], a: u32)
    ensures { links.new ≡ cleared a links.old }
{
    set_next(links, a, a);
    set_prev(links, a, a);
}
