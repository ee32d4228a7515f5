// A row after a batch: the hunt for its affected vertices starts at the removed edges that hold up their heads, and then the row has the state in which
// its rounds start. What a batch changed is a list `net` with two words for each change: see `compare`.
#![tactic(auto)]

ghost use Rattle.std.specs.Prelude.{◌≡◌, true, false, cond, List, ℕ, ◌+◌, ◌*◌, ◌<◌, ◌≤◌, length, get_or, set};
ghost use Rattle.property.specs.Property.{property};
ghost use Rattle.frontier.specs.Waiting.{waiting_of, count_of};
ghost use Rattle.graph.specs.Limits.{max_vertices};
ghost use Rattle.graph.specs.Edge.{Edge};
ghost use Rattle.graph.specs.Index.{Fit};
ghost use Rattle.run.specs.Run.{no_tally};
ghost use Rattle.run.specs.Code.{bits, Marks};
ghost use Rattle.affected.specs.Affected as spec;
ghost use Rattle.affected.specs.Prepared as start;
ghost use Rattle.compare.specs.Code.{before, after, changes_in, Inside, Faces};
ghost use Rattle.hunt.specs.Code.{from_end};
ghost use Rattle.prepare.specs.Code.{Batched, edge_lost, starts, Raised, Started, Woken, Entering};

use frontier::Words;
use graph::arc;

// ---- what the changes do

// Whether an edge of weight `w` is lost to the property where `other` stands in its place, 0 for none: there is such an edge, and nothing or
// a worse weight in its place. So an old edge is removed by the new weight, and a new one added by the old.
fn is_edge_lost(p: u32, w: u32, other: u32) -> bool
    ensures { result ≡ edge_lost (property p) w other }
{
    0 < w && hunt::is_lost(p, w, other)
}

// The tail of change `k` is to do where its removed edge holds up its head.
fn start_change(p: u32, s: u32, k: usize, net: &[u32], words: &[u32], todo: &mut Words)
    requires { (2 * k + 1 < length net.now) × Inside (length words.now) net.now × (length words.now ≤ max_vertices) }
    ensures { waiting_of todo.new ≡ cond (starts (property p) s words.now net.now k) (set (waiting_of todo.old) (from_end (length words.now) (before net.now k).tail) true) (waiting_of todo.old) }
{
    let at = 2 * k;
    let w = arc::weight(net[at]);
    if !is_edge_lost(p, w, arc::weight(net[at + 1])) {
        return;
    }
    let t = arc::head(net[at]) as usize;
    let h = arc::head(net[at + 1]);
    if hunt::is_held(p, s, words[t], w, h, words[h as usize]) {
        frontier::insert(todo, words.len() - 1 - t);
    }
}

// The tail of change `k` waits where it added an edge.
fn wake_change(p: u32, k: usize, net: &[u32], waiting: &mut Words)
    requires { (2 * k + 1 < length net.now) × Inside max_vertices net.now }
    ensures { waiting_of waiting.new ≡ cond (edge_lost (property p) (after net.now k).weight (before net.now k).weight) (set (waiting_of waiting.old) (after net.now k).tail true) (waiting_of waiting.old) }
{
    let at = 2 * k;
    let t = arc::head(net[at]) as usize;
    if is_edge_lost(p, arc::weight(net[at + 1]), arc::weight(net[at])) {
        frontier::insert(waiting, t);
    }
}

// The changes of a batch: the tails of the removed edges that hold up their heads are to do, and the tails of the added edges wait.
fn take_changes(p: u32, s: u32, net: &[u32], words: &[u32], todo: &mut Words, waiting: &mut Words)
    requires { Inside (length words.now) net.now × Marks (length words.now) todo.old × Marks (length words.now) waiting.old }
    ensures raised { Raised (waiting_of todo.old) (waiting_of todo.new) (Started (property p) s words.now net.now (changes_in net.now)) × Marks (length words.now) todo.new }
    ensures raised_2 { Raised (waiting_of waiting.old) (waiting_of waiting.new) (Woken (property p) net.now (changes_in net.now)) × Marks (length words.now) waiting.new }
{
    for k in 0..net.len() / 2 {
        start_change(p, s, k, net, words, todo);
        wake_change(p, k, net, waiting);
    }
}

// ---- where the rounds start

// The tails of the new edges into vertex `v` wait: they are the heads of its edges in the index of the reversed new table.
fn wake_into(n: usize, v: usize, into: &[u32], waiting: &mut Words)
    requires { (v < n) × Fit n into.now × Marks n waiting.old }
    ensures raised { Raised (waiting_of waiting.old) (waiting_of waiting.new) (Entering into.now (get_or into.now v 0) (get_or into.now (v + 1) 0)) }
    ensures marks { Marks n waiting.new }
{
    let hi = into[v + 1] as usize;
    let lo = into[v] as usize;
    for j in lo..hi {
        frontier::insert(waiting, arc::head(into[j]) as usize);
    }
}

// The marked vertices of a row have no route, and the tails of the new edges into them wait.
fn reopen_marked(
    p: u32,
    n: usize,
    into: &[u32],
    marks: &Words,
    words: &mut [u32],
    waiting: &mut Words,
)
    requires { Fit n into.now × Marks n marks.now × (length words.old ≡ n) × Marks n waiting.old }
    ensures words_after { words.new ≡ start.cleared (property p) (bits n marks.now) words.old n }
    ensures raised { Raised (waiting_of waiting.old) (waiting_of waiting.new) (λ t. (v : ℕ) × (get_or (waiting_of marks.now) v false ≡ true) × Entering into.now (get_or into.now v 0) (get_or into.now (v + 1) 0) t) }
    ensures marks { Marks n waiting.new }
{
    let mut i = 0;
    // kept as a `while`: a turn leads to the next marked vertex, and `next_from` may be asked below the last one alone
    while i < n {
        let Some(v) = frontier::next_from(marks, i) else {
            return;
        };
        words[v] = property::none(p);
        wake_into(n, v, into, waiting);
        i = v + 1;
    }
}

// A row after a batch: `words`, its words before it, become those that its rounds start from, `waiting` who waits then, and the answer is how
// many vertices are affected. `net` is what the batch changed, `old` the index of the table before it, `other` what is now in the place of each of its
// arcs, and `into` the index of the reversed table after it.
pub fn prepare(
    p: u32,
    n: usize,
    s: u32,
    net: &[u32],
    old: &[u32],
    other: &[u32],
    into: &[u32],
    words: &mut [u32],
    waiting: &mut Words,
) -> u64
    requires { Inside n net.now × Fit n old.now × (length old.now ≤ length other.now) × Fit n into.now × (length words.old ≡ n) }
    ensures no_tally_after { (es fs : List Edge) → Batched n es fs old.now into.now net.now → Faces n es fs old.now other.now → (record { words = words.new; waiting = bits n waiting.new; tally = no_tally } ≡ start.prepared (property p) es fs s words.old n) × (result ≡ count_of (spec.affected (property p) es fs s words.old n)) }
    ensures marks { Marks n waiting.new × (result ≤ max_vertices) }
{
    let mut marks = frontier::empty();
    let mut todo = frontier::empty();
    frontier::clear(waiting);
    take_changes(p, s, net, words, &mut todo, waiting);
    hunt::hunt(p, n, s, old, other, words, &mut marks, &mut todo);
    reopen_marked(p, n, into, &marks, words, waiting);
    frontier::count(&marks) as u64
}
