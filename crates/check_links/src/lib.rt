// The check of rings that may be damaged (crate `memory_rings` says what they are). A table says of each id to whose
// ring it belongs. A survey walks the rings of some anchors; each id that it meets belongs there and is taken off a
// budget, which is one more than the ids still to be met.
#![tactic(auto)]

ghost use Rattle.std.specs.Prelude.{◌≡◌, ◌+◌, ◌*◌, ◌<◌, ◌≤◌, length, ◌==◌};
ghost use Rattle.rules.specs.Ids.{once};
ghost use Rattle.memory_rings.specs.Links.{half, nexts, prevs, next_of, prev_of};
ghost use Rattle.check_links.specs.declared.Table.TheVariants.{Masks};
ghost use Rattle.check_links.specs.Survey.{counted, filled, bits, housed, ids_of, most_entries};
ghost use Rattle.check_links.specs.Survey.{belongs, marked, owns, covers, Covered, toured, ranged, budget};

// How many ids a mask is of.
const BITS: usize = 32;

// Ids are counted in words of 32 bits: entries of a table are at most so many.
const MOST: usize = 134217727;

// What a table has as its entries.
#[derive(Clone, Copy)]
pub enum Table {
    // for each id the home, which is so much less than the anchor of its ring; 0 if it belongs to none
    Homes(u32),
    // for each anchor a mask of 32 ids, one mask's after the other's; those whose bits are set belong to its ring
    Masks,
}

// ---- counts

// How many words are not 0. The zeros are counted, which the compiler does in one instruction less.
fn filled(words: &[u32]) -> u32
    requires { length words.now < 4294967296 }
    ensures { (result ≡ filled (length words.now) words.now) × (result ≤ length words.now) }
{
    let zeros: u32 = words.iter().map(|x| u32::from(*x == 0)).sum();
    words.len() as u32 - zeros
}

// How many bits of all masks are set.
fn ones(masks: &[u32]) -> u32
    requires { length masks.now ≤ most_entries }
    ensures { (result ≡ counted (bits * length masks.now) (housed Masks masks.now)) ×
        (result ≤ bits * length masks.now) }
{
    masks.iter().map(|m| m.count_ones()).sum()
}

// How many ids a table is of.
fn ids(words: &[u32], table: Table) -> usize
    requires { length words.now ≤ most_entries }
    ensures { result ≡ ids_of table words.now }
{
    match table {
        Table::Homes(_) => words.len(),
        Table::Masks => BITS * words.len(),
    }
}

// How many of them belong to a ring.
fn held(words: &[u32], table: Table) -> u32
    requires { length words.now ≤ most_entries }
    ensures { (result ≡ counted (ids_of table words.now) (housed table words.now)) ×
        (result ≤ bits * length words.now) }
{
    match table {
        Table::Homes(_) => filled(words),
        Table::Masks => ones(words),
    }
}

// The budget of a survey: as many ids are linked as belong to a ring. Else 0.
pub fn budget(links: &[u32], words: &[u32], table: Table) -> u32
    ensures { result ≡ budget links.now table words.now }
{
    if MOST < words.len() {
        return 0;
    }
    let n = ids(words, table);
    if links.len() <= n {
        return 0;
    }
    let all = held(words, table);
    if filled(&links[1..n + 1]) == all {
        all + 1
    } else {
        0
    }
}

// ---- links of nodes

fn next(links: &[u32], x: usize) -> usize
    requires { x < half links.now }
    ensures { result ≡ next_of links.now x }
{
    links[x] as usize
}

fn prev(links: &[u32], x: usize) -> usize
    requires { x < half links.now }
    ensures { result ≡ prev_of links.now x }
{
    links[links.len() / 2 + x] as usize
}

// ---- rings

// Whether node y is an id whose home is v.
#[tactic(auto, unfolding(crate::specs::Survey::belongs))]
fn homed(homes: &[u32], v: usize, y: usize) -> bool
    ensures { result ≡ belongs homes.now v y }
{
    1 <= y && y <= homes.len() && homes[y - 1] as usize == v
}

// Whether node y is one of the ids from `first` on that a mask is of, and its bit is set.
fn is_marked(mask: u32, first: usize, y: usize) -> bool
    requires { first ≤ 4294967296 }
    ensures { result ≡ marked mask first y }
{
    // A node before the first wraps to a large number: one comparison serves both ends.
    let k = y.wrapping_sub(first);
    k < BITS && (mask >> k) % 2 == 1
}

// Whether node y is an id that belongs to the ring of anchor a.
fn is_own(words: &[u32], table: Table, first: usize, a: usize, y: usize) -> bool
    requires { (length words.now ≤ most_entries) × Covered table words.now first a }
    ensures { result ≡ owns table words.now first a y }
{
    match table {
        Table::Homes(shift) => homed(words, a - shift as usize, y),
        Table::Masks => {
            let i = a - first;
            is_marked(words[i], BITS * i + 1, y)
        }
    }
}

// What the ring of anchor a leaves of a budget; 0 where a link does not point back, or leads to what does not belong there.
fn tour(links: &[u32], words: &[u32], table: Table, first: usize, a: usize, budget: u32) -> u32
    requires { (length words.now ≤ most_entries) × (ids_of table words.now < half links.now) × (a < half links.now) ×
        Covered table words.now first a }
    ensures { result ≡ toured budget (owns table words.now first a) (nexts links.now)
        (prevs links.now) a a }
{
    let mut x = a;
    let mut k = budget;
    // Counted by hand: over `0..budget` the compiler no longer lays a survey out ring by ring, and the check costs a twentieth more.
    while 0 < k {
        let y = next(links, x);
        if y == a {
            if prev(links, a) != x {
                return 0;
            }
            return k;
        }
        if !is_own(words, table, first, a, y) {
            return 0;
        }
        if prev(links, y) != x {
            return 0;
        }
        x = y;
        k -= 1;
    }
    0
}

// Whether a table has what is asked of the `count` anchors from `first` on.
fn is_covered(words: &[u32], table: Table, first: usize, count: usize) -> bool
    ensures { result ≡ covers table words.now first count }
{
    match table {
        Table::Homes(shift) => shift as usize <= first,
        Table::Masks => count <= words.len(),
    }
}

// What the rings of the anchors from a on, `count` of them, leave of a budget.
pub fn survey(links: &[u32], words: &[u32], table: Table, a: u32, count: u32, budget: u32) -> u32
    ensures { result ≡ ranged links.now table words.now a count budget }
{
    let half = links.len() / 2;
    let first = a as usize;
    let n = count as usize;
    let e = first + n;
    if MOST < words.len() {
        return 0;
    }
    if half <= ids(words, table) {
        return 0;
    }
    if half < e {
        return 0;
    }
    if !is_covered(words, table, first, n) {
        return 0;
    }
    let mut k = budget;
    for b in first..e {
        // Most rings are empty, and take nothing.
        if next(links, b) == b {
            if prev(links, b) != b {
                return 0;
            }
        } else {
            k = tour(links, words, table, first, b, k);
            if k == 0 {
                return 0;
            }
        }
    }
    k
}
