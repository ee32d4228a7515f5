// Runs: handling a vertex, the schedule, rounds, and where a run starts. Each step takes the tally by value and returns it; `run` alone is lent it.
// The edges of vertex `u` stand from place `firsts[u]` up to `firsts[u + 1]` in `heads` and `weights`: by themselves, as a table has them, or as
// arcs where `packed`. An index has places and arcs in one list, and is lent for all three.
#![tactic(auto)]

ghost use Rattle.std.specs.Prelude.{◌≡◌, List, true, false, ℕ, ◌+◌, ◌*◌, ◌<◌, ◌≤◌, length, set, replicate};
ghost use Rattle.property.specs.Property.{property};
ghost use Rattle.frontier.specs.Waiting.{capacity};
ghost use Rattle.graph.specs.Limits.{max_vertices, max_edges};
ghost use Rattle.graph.specs.Edge.{Edge};
ghost use Rattle.graph.specs.Index.{Fit, Own, FitIn, OwnIn};
ghost use Rattle.run.specs.Run as spec;
ghost use Rattle.run.specs.Start.{opened, values_from};
ghost use Rattle.run.specs.Code.{bits, no_counts, state, Marks, Sized, Low, Ready, Ran, Scheduled};

use frontier::Words;
use graph::arc;

// A count has 64 bits. A run asks for counts below 2 ^ 31, and each step within it for a bit or more above its caller's (`Ready` 32, 38 and 39,
// `Low` 40): all that the loops of a run add to a count is less than 2 ^ 31, so no count wraps.
#[derive(Clone, Copy)]
pub struct Tally {
    pub taken: u64,
    pub rounds: u64,
    pub stores: u64,
}

// The value `a` reaches vertex `h`: stored, set waiting and counted where it is better.
fn relax(
    p: u32,
    n: usize,
    h: usize,
    a: u32,
    words: &mut [u32],
    waiting: &mut Words,
    t: Tally,
) -> Tally
    requires { (h < n) × Sized n words.old waiting.old × Low 40 t }
    ensures result_after { (e : Edge) → e.head ≡ h → (property p).along (spec.word (property p) words.old e.tail) e.weight ≡ a → state n words.new waiting.new result ≡ spec.relax (property p) (state n words.old waiting.old t) e }
    ensures ran { Ran n words.new waiting.new t result 0 0 1 }
{
    if property::better(p, a, words[h]) {
        words[h] = a;
        frontier::insert(waiting, h);
        Tally {
            taken: t.taken,
            rounds: t.rounds,
            stores: t.stores + 1,
        }
    } else {
        t
    }
}

// Vertex `u` is handled: its bit is cleared, then its edges are gone along in table order. There are as many vertices as words.
fn handle(
    p: u32,
    packed: bool,
    u: usize,
    firsts: &[u32],
    heads: &[u32],
    weights: &[u32],
    words: &mut [u32],
    waiting: &mut Words,
    tally: Tally,
) -> Tally
    requires { (n : ℕ) × (u < n) × Ready 39 packed n firsts.now heads.now weights.now words.old waiting.old tally }
    ensures by_index { (n : ℕ) → length words.old ≡ n → (es : List Edge) → OwnIn packed n firsts.now heads.now weights.now es → state n words.new waiting.new result ≡ spec.handle (property p) es (state n words.old waiting.old tally) u }
    ensures by_index_2 { (n : ℕ) → length words.old ≡ n → Ran n words.new waiting.new tally result 0 0 max_edges }
{
    let n = words.len();
    let v = words[u];
    let hi = firsts[u + 1] as usize;
    let lo = firsts[u] as usize;
    frontier::remove(waiting, u);
    let mut t = tally;
    for j in lo..hi {
        let h = arc::head_in(packed, heads[j]) as usize;
        let x = property::along(p, v, arc::weight_in(packed, weights[j]));
        t = relax(p, n, h, x, words, waiting, t);
    }
    t
}

// One round of property `p`: each waiting vertex is handled when its turn comes, ascending.
fn round_of(
    p: u32,
    n: usize,
    packed: bool,
    firsts: &[u32],
    heads: &[u32],
    weights: &[u32],
    words: &mut [u32],
    waiting: &mut Words,
    tally: Tally,
) -> Tally
    requires { Ready 38 packed n firsts.now heads.now weights.now words.old waiting.old tally }
    ensures result_after { (es : List Edge) → OwnIn packed n firsts.now heads.now weights.now es → state n words.new waiting.new result ≡ spec.round (property p) es n (state n words.old waiting.old tally) }
    ensures ran { Ran n words.new waiting.new tally result 0 1 (max_vertices * max_edges) }
{
    let mut t = Tally {
        taken: tally.taken,
        rounds: tally.rounds + 1,
        stores: tally.stores,
    };
    let mut i = 0;
    // kept as a `while`: a turn leads to the next vertex that waits, and `next_from` may be asked below the last one alone
    while i < n {
        let Some(v) = frontier::next_from(waiting, i) else {
            return t;
        };
        t = handle(p, packed, v, firsts, heads, weights, words, waiting, t);
        i = v + 1;
    }
    t
}

// One round. The number of its property and the form of its lists are literal in each arm, so that their tests are made once and not at each edge.
fn round(
    p: u32,
    n: usize,
    packed: bool,
    firsts: &[u32],
    heads: &[u32],
    weights: &[u32],
    words: &mut [u32],
    waiting: &mut Words,
    tally: Tally,
) -> Tally
    requires { Ready 38 packed n firsts.now heads.now weights.now words.old waiting.old tally }
    ensures result_after { (es : List Edge) → OwnIn packed n firsts.now heads.now weights.now es → state n words.new waiting.new result ≡ spec.round (property p) es n (state n words.old waiting.old tally) }
    ensures ran { Ran n words.new waiting.new tally result 0 1 (max_vertices * max_edges) }
{
    match p {
        1 => {
            if packed {
                round_of(1, n, true, firsts, heads, weights, words, waiting, tally)
            } else {
                round_of(1, n, false, firsts, heads, weights, words, waiting, tally)
            }
        }
        2 => {
            if packed {
                round_of(2, n, true, firsts, heads, weights, words, waiting, tally)
            } else {
                round_of(2, n, false, firsts, heads, weights, words, waiting, tally)
            }
        }
        3 => {
            if packed {
                round_of(3, n, true, firsts, heads, weights, words, waiting, tally)
            } else {
                round_of(3, n, false, firsts, heads, weights, words, waiting, tally)
            }
        }
        4 => {
            if packed {
                round_of(4, n, true, firsts, heads, weights, words, waiting, tally)
            } else {
                round_of(4, n, false, firsts, heads, weights, words, waiting, tally)
            }
        }
        _ => {
            if packed {
                round_of(5, n, true, firsts, heads, weights, words, waiting, tally)
            } else {
                round_of(5, n, false, firsts, heads, weights, words, waiting, tally)
            }
        }
    }
}

// Rounds while any vertex waits, at most `n`.
pub fn settle(
    p: u32,
    n: usize,
    packed: bool,
    firsts: &[u32],
    heads: &[u32],
    weights: &[u32],
    words: &mut [u32],
    waiting: &mut Words,
    tally: Tally,
) -> Tally
    requires { Ready 32 packed n firsts.now heads.now weights.now words.old waiting.old tally }
    ensures result_after { (es : List Edge) → OwnIn packed n firsts.now heads.now weights.now es → state n words.new waiting.new result ≡ spec.settle (property p) es n n (state n words.old waiting.old tally) }
    ensures ran { Ran n words.new waiting.new tally result 0 n (max_vertices * max_vertices * max_edges) }
{
    let mut t = tally;
    for _round in 0..n {
        if !frontier::any(waiting) {
            return t;
        }
        t = round(p, n, packed, firsts, heads, weights, words, waiting, t);
    }
    t
}

// One entry of the schedule: handled and counted if it waits, else skipped.
fn take(
    p: u32,
    n: usize,
    u: usize,
    firsts: &[u32],
    heads: &[u32],
    weights: &[u32],
    words: &mut [u32],
    waiting: &mut Words,
    tally: Tally,
) -> Tally
    requires u_lt_n { u < n }
    requires ready { Ready 38 false n firsts.now heads.now weights.now words.old waiting.old tally }
    ensures result_after { (es : List Edge) → OwnIn false n firsts.now heads.now weights.now es → state n words.new waiting.new result ≡ spec.take_entry (property p) es (state n words.old waiting.old tally) u }
    ensures ran { Ran n words.new waiting.new tally result 1 0 max_edges }
{
    if frontier::contains(waiting, u) {
        let t = Tally {
            taken: tally.taken + 1,
            rounds: tally.rounds,
            stores: tally.stores,
        };
        handle(p, false, u, firsts, heads, weights, words, waiting, t)
    } else {
        tally
    }
}

// The schedule is gone through.
fn pass(
    p: u32,
    n: usize,
    firsts: &[u32],
    heads: &[u32],
    weights: &[u32],
    schedule: &[u32],
    words: &mut [u32],
    waiting: &mut Words,
    tally: Tally,
) -> Tally
    requires ready { Ready 32 false n firsts.now heads.now weights.now words.old waiting.old tally }
    requires scheduled { Scheduled n schedule.now }
    ensures result_after { (es : List Edge) → OwnIn false n firsts.now heads.now weights.now es → state n words.new waiting.new result ≡ spec.pass (property p) es schedule.now (state n words.old waiting.old tally) }
    ensures ran { Ran n words.new waiting.new tally result (length schedule.now) 0 (max_edges * length schedule.now) }
{
    let mut t = tally;
    for entry in schedule {
        let u = *entry as usize;
        t = take(p, n, u, firsts, heads, weights, words, waiting, t);
    }
    t
}

// A run on a tally by value: the schedule, then rounds.
fn run_from(
    p: u32,
    n: usize,
    firsts: &[u32],
    heads: &[u32],
    weights: &[u32],
    schedule: &[u32],
    words: &mut [u32],
    waiting: &mut Words,
    tally: Tally,
) -> Tally
    requires { Ready 31 false n firsts.now heads.now weights.now words.old waiting.old tally × Scheduled n schedule.now }
    ensures { ((es : List Edge) → OwnIn false n firsts.now heads.now weights.now es → state n words.new waiting.new result ≡ spec.settle (property p) es n n (spec.pass (property p) es schedule.now (state n words.old waiting.old tally))) × Ran n words.new waiting.new tally result (length schedule.now) n (max_edges * length schedule.now + max_vertices * max_vertices * max_edges) }
{
    let passed = pass(
        p, n, firsts, heads, weights, schedule, words, waiting, tally,
    );
    settle(p, n, false, firsts, heads, weights, words, waiting, passed)
}

// A run over the lists of a table, the schedule and then rounds, on the tally that its caller lends.
pub fn run(
    p: u32,
    n: usize,
    firsts: &[u32],
    heads: &[u32],
    weights: &[u32],
    schedule: &[u32],
    words: &mut [u32],
    waiting: &mut Words,
    tally: &mut Tally,
)
    requires { Ready 31 false n firsts.now heads.now weights.now words.old waiting.old tally.old × Scheduled n schedule.now }
    ensures { ((es : List Edge) → OwnIn false n firsts.now heads.now weights.now es → state n words.new waiting.new tally.new ≡ spec.settle (property p) es n n (spec.pass (property p) es schedule.now (state n words.old waiting.old tally.old))) × Ran n words.new waiting.new tally.old tally.new (length schedule.now) n (max_edges * length schedule.now + max_vertices * max_vertices * max_edges) }
{
    *tally = run_from(
        p, n, firsts, heads, weights, schedule, words, waiting, *tally,
    );
}

// A run over the lists of a table, on a tally of its own, which is its reply.
pub fn run_counted(
    p: u32,
    n: usize,
    firsts: &[u32],
    heads: &[u32],
    weights: &[u32],
    schedule: &[u32],
    words: &mut [u32],
    waiting: &mut Words,
) -> Tally
    requires { FitIn false n firsts.now heads.now weights.now × Sized n words.old waiting.old × Scheduled n schedule.now }
    ensures { ((es : List Edge) → OwnIn false n firsts.now heads.now weights.now es → state n words.new waiting.new result ≡ spec.settle (property p) es n n (spec.pass (property p) es schedule.now (state n words.old waiting.old no_counts))) × Ran n words.new waiting.new no_counts result (length schedule.now) n (max_edges * length schedule.now + max_vertices * max_vertices * max_edges) }
{
    let mut tally = Tally {
        taken: 0,
        rounds: 0,
        stores: 0,
    };
    run(
        p, n, firsts, heads, weights, schedule, words, waiting, &mut tally,
    );
    tally
}

// A run without a schedule, over an index: rounds alone, on a tally of its own.
pub fn run_unscheduled(
    p: u32,
    n: usize,
    index: &[u32],
    words: &mut [u32],
    waiting: &mut Words,
) -> Tally
    requires { Fit n index.now × Sized n words.old waiting.old }
    ensures result_after { (es : List Edge) → Own n index.now es → state n words.new waiting.new result ≡ spec.settle (property p) es n n (state n words.old waiting.old no_counts) }
    ensures ran { Ran n words.new waiting.new no_counts result 0 n (max_vertices * max_vertices * max_edges) }
{
    let tally = Tally {
        taken: 0,
        rounds: 0,
        stores: 0,
    };
    settle(p, n, true, index, index, index, words, waiting, tally)
}

// Vertex `s` alone waits.
pub fn start_at(n: usize, s: usize, waiting: &mut Words)
    requires { (s < n) × (n ≤ capacity) }
    ensures waiting_after { bits n waiting.new ≡ set (replicate n false) s true }
    ensures marks { Marks n waiting.new }
{
    *waiting = frontier::empty();
    frontier::insert(waiting, s);
}

// A row of landmark `s` is opened: no route but for `s`, which has its value and waits.
pub fn open_row(p: u32, n: usize, s: usize, words: &mut [u32], waiting: &mut Words)
    requires { (s < n) × (n ≤ capacity) × (length words.old ≡ n) }
    ensures no_counts_after { state n words.new waiting.new no_counts ≡ opened (property p) n s }
    ensures sized { Sized n words.new waiting.new }
{
    graph::words::fill(words, property::none(p));
    words[s] = property::start(p);
    start_at(n, s, waiting);
}

// The values from vertex `s`, a word for each vertex: opened, then rounds.
pub fn values_from(p: u32, n: usize, s: usize, index: &[u32], words: &mut [u32])
    requires { (s < n) × Fit n index.now × (length words.old ≡ n) }
    ensures words_after { (es : List Edge) → Own n index.now es → words.new ≡ values_from (property p) es n s }
    ensures words_len { length words.new ≡ n }
{
    let mut waiting = frontier::empty();
    open_row(p, n, s, words, &mut waiting);
    run_unscheduled(p, n, index, words, &mut waiting);
}
