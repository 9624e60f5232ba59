// Lines read off links that may be damaged: what a walk along the next links from an anchor lists, up to the anchor
// again. A node that is no id ends the walk, and so does one step more than there are ids.
ghost use Rattle.std.specs.Prelude.{◌≡◌, ◌+◌, ◌≤◌, eqb};
ghost use Rattle.rules.specs.Ids.{once, times};
ghost use Rattle.memory_rings.specs.Links.{nexts};
ghost use Rattle.memory_rings.specs.Rings.{line_of};
ghost use Rattle.check_lines.specs.Lists as Lists;

use check_ranges::within;
use memory_rings::follow;

// A node shows one of the numbers 1 to `most`, behind the nodes up to `low`.
fn shows(x: u32, low: u32, most: u32) -> bool
    ensures { result ≡ Lists.shows low most x }
{
    low < x && x - low <= most
}

// Every node in the line of anchor a shows such a number.
pub fn line_known(links: &[u32], n: u32, a: u32, low: u32, most: u32) -> bool
    ensures { result ≡ Lists.known low most (line_of n (nexts links.now) a) }
{
    let mut x = follow(links, a);
    for _ in 0..n as usize + 1 {
        if x == a {
            return true;
        }
        if !shows(x, low, most) {
            return false;
        }
        if !within(x, n) {
            return true;
        }
        x = follow(links, x);
    }
    true
}

fn one_if_same(x: u32, i: u32) -> usize
    ensures { (result ≡ once (eqb x i)) × (result ≤ 1) }
{
    usize::from(x == i)
}

// How often i stands in the line of anchor a.
pub fn times_in(links: &[u32], n: u32, a: u32, i: u32) -> usize
    ensures { (result ≡ times i (line_of n (nexts links.now) a)) × (result ≤ n + 1) }
{
    let mut found: usize = 0;
    let mut x = follow(links, a);
    for _ in 0..n as usize + 1 {
        if x == a {
            return found;
        }
        found += one_if_same(x, i);
        if !within(x, n) {
            return found;
        }
        x = follow(links, x);
    }
    found
}

// The id i stands in the line of anchor a as often as it belongs there: once if that is its home, else not at all.
#[tactic(auto, unfolding(crate::specs::Lists::stands_right))]
pub fn stands_right(links: &[u32], n: u32, a: u32, home: u32, i: u32) -> bool
    ensures { result ≡ Lists.stands_right n (nexts links.now) home i a }
{
    times_in(links, n, a, i) == one_if_same(home, a)
}
