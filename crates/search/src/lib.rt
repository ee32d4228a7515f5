// The search for a route, breadth first from its source: found first is what has fewer edges, then lower vertices, and then lighter twins.
#![tactic(auto)]

ghost use Rattle.std.specs.Prelude.{◌≡◌, ◌≢◌, Bool, not, List, ◌<◌, ◌≤◌, length};
ghost use Rattle.graph.specs.Limits.{max_vertices};
ghost use Rattle.graph.specs.Arc.{arc};
ghost use Rattle.graph.specs.Edge.{Edge, edges};
ghost use Rattle.graph.specs.Index.{Fit, Own};
ghost use Rattle.calls.specs.Code.{Tabled};
ghost use Rattle.answers.specs.Routing.{eligible};
ghost use Rattle.search.specs.Search.{unfound, is_unfound, look, expand, begun, searched};
ghost use Rattle.search.specs.Search as spec;
ghost use Rattle.search.specs.Code.{is_eligible, search_of, Searching};

use graph::{arc, pack};

// The word of a vertex that is not found: no arc has it.
const UNFOUND: u32 = property::GREATEST;

// The word of the source, which is found by no edge: no arc has it, since weights are above 0.
const NO_ARC: u32 = 0;

// Whether an edge of weight `w`, whose ends have the best values `x` and `y`, can lie on a best route of value `v`.
fn is_eligible(p: u32, v: u32, x: u32, w: u32, y: u32) -> bool
    ensures { result ≡ is_eligible p v x w y }
{
    if p <= 2 {
        property::along(p, x, w) == y
    } else {
        !property::better(p, v, property::along(p, property::start(p), w))
    }
}

// An edge to vertex `h` is looked at: `h` is found by the arc `by` where the edge passes its test and `h` is not found yet; how many are found then.
fn look(test: bool, h: usize, by: u32, queue: &mut [u32], count: usize, via: &mut [u32]) -> usize
    requires { (h < length via.old) × (by ≢ unfound) × Searching count queue.old via.old }
    ensures via_after { (f : Edge → Bool) (e : Edge) → f e ≡ test → e.head ≡ h → arc e.tail e.weight ≡ by → search_of result queue.new via.new ≡ look f (search_of count queue.old via.old) e }
    ensures searching { Searching result queue.new via.new }
{
    if test && via[h] == UNFOUND {
        via[h] = by;
        queue[count] = h as u32;
        count + 1
    } else {
        count
    }
}

// The edges of vertex `u`, in table order; how many vertices are found then.
fn expand(
    p: u32,
    v: u32,
    u: usize,
    index: &[u32],
    row: &[u32],
    queue: &mut [u32],
    count: usize,
    via: &mut [u32],
) -> usize
    requires { (u < length via.old) × Fit (length via.old) index.now × (length row.now ≡ length via.old) × Searching count queue.old via.old }
    ensures via_after { (es : List Edge) → Own (length via.old) index.now es → search_of result queue.new via.new ≡ expand (eligible p row.now v) es (search_of count queue.old via.old) u }
    ensures searching { Searching result queue.new via.new }
{
    let x = row[u];
    let lo = index[u] as usize;
    let hi = index[u + 1] as usize;
    let mut m = count;
    for j in lo..hi {
        let a = index[j];
        let h = arc::head(a) as usize;
        let w = arc::weight(a);
        let test = is_eligible(p, v, x, w, row[h]);
        m = look(test, h, arc::arc(u as u32, w), queue, m, via);
    }
    m
}

// The search from `s` along the eligible edges, until `t` is found or nothing is left to expand: whether it is found.
fn search(
    p: u32,
    v: u32,
    s: usize,
    t: usize,
    index: &[u32],
    row: &[u32],
    queue: &mut [u32],
    via: &mut [u32],
) -> bool
    requires { (s < length via.old) × (t < length via.old) × Fit (length via.old) index.now × (length row.now ≡ length via.old) × (length via.old ≤ length queue.old) }
    ensures { (es : List Edge) → Own (length via.old) index.now es → (via.new ≡ (spec.search (eligible p row.now v) es t (length via.old) 0 (begun (length via.old) s)).via) × (result ≡ not (is_unfound (spec.search (eligible p row.now v) es t (length via.old) 0 (begun (length via.old) s)) t)) }
{
    graph::words::fill(via, UNFOUND);
    via[s] = NO_ARC;
    queue[0] = s as u32;
    let mut count = 1;
    let mut i = 0;
    // kept as a `while`: the queue grows as it is walked, and the walk ends where `t` is found
    while i < count && via[t] == UNFOUND {
        let u = queue[i] as usize;
        count = expand(p, v, u, index, row, queue, count, via);
        i += 1;
    }
    via[t] != UNFOUND
}

// The same for each property but handovers, with its number literal in each arm, so that its tests are made once and not at each edge.
fn search_by(
    p: u32,
    v: u32,
    s: usize,
    t: usize,
    index: &[u32],
    row: &[u32],
    queue: &mut [u32],
    via: &mut [u32],
) -> bool
    requires { (0 < p) × (p ≢ 2) × (s < length via.old) × (t < length via.old) × Fit (length via.old) index.now × (length row.now ≡ length via.old) × (length via.old ≤ length queue.old) }
    ensures { (es : List Edge) → Own (length via.old) index.now es → (via.new ≡ (spec.search (eligible p row.now v) es t (length via.old) 0 (begun (length via.old) s)).via) × (result ≡ not (is_unfound (spec.search (eligible p row.now v) es t (length via.old) 0 (begun (length via.old) s)) t)) }
{
    match p {
        1 => search(1, v, s, t, index, row, queue, via),
        3 => search(3, v, s, t, index, row, queue, via),
        4 => search(4, v, s, t, index, row, queue, via),
        _ => search(5, v, s, t, index, row, queue, via),
    }
}

// The search for a route of property `p`. For handovers and reach fewer edges are all that counts: every edge is searched, as each is eligible for
// reach, whose value is 1 wherever there is a route; no best values are asked for.
fn search_best(
    p: u32,
    s: usize,
    t: usize,
    index: &[u32],
    row: &mut [u32],
    queue: &mut [u32],
    via: &mut [u32],
) -> bool
    requires { (0 < p) × (s < length via.old) × (t < length via.old) × Fit (length via.old) index.now × (length row.old ≡ length via.old) × (length via.old ≤ length queue.old) }
    ensures { (es : List Edge) → Own (length via.old) index.now es → (via.new ≡ (searched p es (length via.old) s t).via) × (result ≡ not (is_unfound (searched p es (length via.old) s t) t)) }
{
    if (p == 2) | (p > 4) {
        return search_by(5, 1, s, t, index, row, queue, via);
    }
    run::values_from(p, via.len(), s, index, row);
    search_by(p, row[t], s, t, index, row, queue, via)
}

// The search in a table, with its scratch: whether `t` is found. `via` then leads back from it. The queue's memory is first that of the index's making.
pub fn find(
    p: u32,
    n: usize,
    s: usize,
    t: usize,
    count: usize,
    tails: &[u32],
    heads: &[u32],
    weights: &[u32],
    via: &mut [u32],
) -> bool
    requires { (0 < p) × (s < n) × (t < n) × (n ≤ max_vertices) × Tabled n count tails.now heads.now weights.now × (length via.old ≡ n) }
    ensures via_after { via.new ≡ (searched p (edges tails.now heads.now weights.now count) n s t).via }
    ensures value { result ≡ not (is_unfound (searched p (edges tails.now heads.now weights.now count) n s t) t) }
{
    let mut index = [0u32; graph::INDEX_WORDS];
    let mut queue = [0u32; graph::PLACE_WORDS];
    let mut row = [0u32; graph::VERTEX_WORDS];
    pack::index(n, count, tails, heads, weights, &mut queue, &mut index);
    search_best(p, s, t, &index, &mut row[..n], &mut queue, via)
}
