// Refusals 1, 2 and 4 of a table, and the rules of its edges.
ghost use Rattle.std.specs.Prelude.{◌≡◌, ℕ, true, not, ◌&&◌, ◌+◌, ◌<◌, ◌≤◌, eqb, ltb};
ghost use Rattle.graph.specs.Limits.{max_vertices, max_edges, max_weight};
ghost use Rattle.graph.specs.Refusal.{accept, refuse_if};
ghost use Rattle.graph.specs.declared.refusal.Refusal.{Refusal};
ghost use Rattle.graph.specs.Edge.{edge, edges, precedes};
ghost use Rattle.graph.specs.Table.{is_weight, is_edge, rules, size, short_table, table, bare_faults};
ghost use Rattle.graph.specs.Code.{number, place, told, told_with, Room, columns, keeps, rank_of};

use super::{MAX_EDGES, MAX_VERTICES, MAX_WEIGHT, Refusal};

// A refusal where the test holds.
pub fn refuse_if(test: bool, refusal: Refusal) -> Result<(), Refusal>
    ensures { told result ≡ refuse_if test (number refusal) (place refusal) }
{
    if test { Err(refusal) } else { Ok(()) }
}

// Whether a weight is 1 to `MAX_WEIGHT`.
pub fn is_weight(w: u32) -> bool
    ensures { result ≡ is_weight w }
{
    (0 < w) & (w <= MAX_WEIGHT)
}

// Whether an edge by itself keeps the rules of a table of `n` vertices.
pub fn is_edge(n: u32, t: u32, h: u32, w: u32) -> bool
    ensures { result ≡ is_edge n (edge t h w) }
{
    (t < n) & ((h < n) & ((t != h) & is_weight(w)))
}

// Table order: by tail, head, weight.
pub fn in_order(t: u32, h: u32, w: u32, u: u32, g: u32, x: u32) -> bool
    ensures { result ≡ precedes (edge t h w) (edge u g x) }
{
    if t != u {
        return t < u;
    }
    if h != g {
        return h < g;
    }
    w < x
}

// Number 1: n is 0 or over `MAX_VERTICES`.
pub fn judge_size(n: u32) -> Result<(), Refusal>
    ensures { told result ≡ size n }
{
    refuse_if((n == 0) | (n > MAX_VERTICES), Refusal::Size)
}

// Number 2: a list of the table has fewer than `MAX_EDGES` words.
pub fn judge_lengths(tails: &[u32], heads: &[u32], weights: &[u32]) -> Result<(), Refusal>
    ensures { told result ≡ short_table (columns tails.now heads.now weights.now) }
{
    refuse_if(
        tails.len() < MAX_EDGES || heads.len() < MAX_EDGES || weights.len() < MAX_EDGES,
        Refusal::Short,
    )
}

// Whether record `k`, which is not the first, comes after the one before it and is an edge.
fn follows(n: u32, tails: &[u32], heads: &[u32], weights: &[u32], k: usize) -> bool
    requires { (0 < k) × Room (k + 1) tails.now heads.now weights.now }
    ensures { result ≡ keeps n tails.now heads.now weights.now k }
{
    let j = k - 1;
    let u = tails[k];
    let g = heads[k];
    let x = weights[k];
    in_order(tails[j], heads[j], weights[j], u, g, x) & is_edge(n, u, g, x)
}

// The table's rules: number 4 at the first record below the count that breaks them.
fn judge_rules(
    n: u32,
    tails: &[u32],
    heads: &[u32],
    weights: &[u32],
    count: usize,
) -> Result<(), Refusal>
    requires { Room count tails.now heads.now weights.now }
    ensures { told result ≡ rules n (edges tails.now heads.now weights.now count) }
{
    if count == 0 {
        return Ok(());
    }
    if !is_edge(n, tails[0], heads[0], weights[0]) {
        return Err(Refusal::Table(0));
    }
    for k in 1..count {
        if !follows(n, tails, heads, weights, k) {
            return Err(Refusal::Table(k));
        }
    }
    Ok(())
}

// The order of edges as one word: of edges with tails and heads below `MAX_VERTICES` and weights to `MAX_WEIGHT` the one that comes before has the lesser.
fn rank_of(t: u32, h: u32, w: u32) -> u32
    ensures { t < max_vertices → h < max_vertices → w ≤ max_weight → result ≡ rank_of (edge t h w) }
{
    (t << 24) | (h << 16) | w
}

// Whether an edge after one of the rank `last` keeps the rules, but for the bound of its tail and the greatest weight, where its rank is `next`. There is
// no branch, so that `are_sound` goes by vectors.
fn is_next(n: u32, t: u32, h: u32, w: u32, last: u32, next: u32) -> bool
    ensures { result ≡ (ltb h n && (not (eqb t h) && (ltb 0 w && ltb last next))) }
{
    (h < n) & ((t != h) & ((0 < w) & (last < next)))
}

// Whether all records keep the rules. It goes over all of them and never stops early. Tails never fall, so the bound of the last is that of all; no tail
// is above the bits of all of them put together, and no weight above those of all weights.
fn are_sound(n: u32, tails: &[u32], heads: &[u32], weights: &[u32], count: usize) -> bool
    requires { (0 < count) × Room count tails.now heads.now weights.now }
    ensures { result ≡ true → accept ≡ rules n (edges tails.now heads.now weights.now count) }
{
    let mut tall = tails[0];
    let mut wide = weights[0];
    let mut all = (n <= MAX_VERTICES) & is_edge(n, tall, heads[0], wide);
    let mut last = rank_of(tall, heads[0], wide);
    for k in 1..count {
        let t = tails[k];
        let h = heads[k];
        let w = weights[k];
        let next = rank_of(t, h, w);
        all = all & is_next(n, t, h, w, last, next);
        tall = tall | t;
        wide = wide | w;
        last = next;
    }
    all & ((tall < MAX_VERTICES) & ((wide <= MAX_WEIGHT) & (tails[count - 1] < n)))
}

// Number 4: a count over `MAX_EDGES`, or the first record that breaks the rules. No function that goes by vectors is called, so that none saves
// registers: a call that is short of stack takes this judge.
pub fn judge_table_plainly(
    n: u32,
    tails: &[u32],
    heads: &[u32],
    weights: &[u32],
    count: u32,
) -> Result<(), Refusal>
    requires { Room max_edges tails.now heads.now weights.now }
    ensures { told result ≡ table n (columns tails.now heads.now weights.now) count }
{
    let records = count as usize;
    if records > MAX_EDGES {
        return Err(Refusal::Table(0));
    }
    judge_rules(n, tails, heads, weights, records)
}

// The same, quicker where all records keep the rules: they are then looked at in one pass without branches.
pub fn judge_table(
    n: u32,
    tails: &[u32],
    heads: &[u32],
    weights: &[u32],
    count: u32,
) -> Result<(), Refusal>
    requires { Room max_edges tails.now heads.now weights.now }
    ensures { told result ≡ table n (columns tails.now heads.now weights.now) count }
{
    let records = count as usize;
    if 0 < records && records <= MAX_EDGES && are_sound(n, tails, heads, weights, records) {
        return Ok(());
    }
    judge_table_plainly(n, tails, heads, weights, count)
}

// Numbers 1, 2 and 4 of a call that takes a table and no landmarks, with what that call judges between 2 and 4: any error that a refusal turns into, whatever
// number and place it has.
pub fn judge_bare<E: From<Refusal> + Drop>(
    n: u32,
    tails: &[u32],
    heads: &[u32],
    weights: &[u32],
    count: u32,
    between: Result<(), E>,
) -> Result<(), E>
    ensures { (k i : E → ℕ) → ((r : Refusal) (e : E) → E.from_gives r e → (k e ≡ number r) × (i e ≡ place r)) → told_with k i result ≡ bare_faults n (columns tails.now heads.now weights.now) count (told_with k i between) }
{
    judge_size(n)?;
    judge_lengths(tails, heads, weights)?;
    between?;
    judge_table(n, tails, heads, weights, count)?;
    Ok(())
}
