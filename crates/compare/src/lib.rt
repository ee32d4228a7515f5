// Two tables compared: what a batch changed, net, as one list of two words for each edge of one table that the other lacks, with its pair and its weight
// before or after; where a pair has just one old and one new of these, they are one change, with both weights. An edge that a batch takes and adds
// again is none. One walk along both tables finds what differs, and one along that finds what is retuned.
// And a list beside an index of the old table, with what stands in the place of each edge after the batch.
#![tactic(auto)]

ghost use Rattle.std.specs.Prelude.{◌≡◌, true, false, not, ◌&&◌, cond, List, map, ℕ, ◌+◌, ◌*◌, ◌<◌, ◌≤◌, length, get_or, set, take, eqb, ltb};
ghost use Rattle.graph.specs.Limits.{max_edges};
ghost use Rattle.graph.specs.Refusal.{accept};
ghost use Rattle.graph.specs.Arc.{arc_heads, arc_weights, arc};
ghost use Rattle.graph.specs.Edge.{Edge, reverse, same_pair, edges, precedes};
ghost use Rattle.graph.specs.Table.{rules};
ghost use Rattle.graph.specs.Index.{Fit, Own};
ghost use Rattle.graph.specs.Code.{Room, edge_at};
ghost use Rattle.compare.specs.Code.{Tables, Inside, Unjoined, before, is_retune, joined, Differences, tells_of, Faces};

use graph::{arc, rules, words};

// Words of a list of changes: two for each edge of both tables, at most.
pub const NET_WORDS: usize = 4 * graph::MAX_EDGES;

// Whether edge `i` of a table comes no later than edge `j` of another one: a walk along both goes past it.
fn is_due(
    i: usize,
    count1: usize,
    tails1: &[u32],
    heads1: &[u32],
    weights1: &[u32],
    j: usize,
    count2: usize,
    tails2: &[u32],
    heads2: &[u32],
    weights2: &[u32],
) -> bool
    requires { Room count1 tails1.now heads1.now weights1.now × Room count2 tails2.now heads2.now weights2.now }
    ensures { result ≡ (ltb i count1 && not (ltb j count2 && precedes (edge_at tails2.now heads2.now weights2.now j) (edge_at tails1.now heads1.now weights1.now i))) }
{
    if i >= count1 {
        return false;
    }
    if j >= count2 {
        return true;
    }
    !rules::in_order(
        tails2[j],
        heads2[j],
        weights2[j],
        tails1[i],
        heads1[i],
        weights1[i],
    )
}

// The word at `i` of one list, or that at `j` of another.
fn either(first: bool, list1: &[u32], i: usize, list2: &[u32], j: usize) -> u32
    requires { (first ≡ true → i < length list1.now) × (first ≡ false → j < length list2.now) }
    ensures { result ≡ cond first (get_or list1.now i 0) (get_or list2.now j 0) }
{
    if first { list1[i] } else { list2[j] }
}

// The weight of edge `i` where the walk goes past it, and 0 where it does not.
fn weight_if(due: bool, weights: &[u32], i: usize) -> u32
    requires { due ≡ true → i < length weights.now }
    ensures { result ≡ cond due (get_or weights.now i 0) 0 }
{
    if due { weights[i] } else { 0 }
}

// One more where the walk goes past an edge.
fn past(due: bool, i: usize) -> usize
    requires { i ≤ max_edges }
    ensures { result ≡ cond due (i + 1) i }
{
    if due { i + 1 } else { i }
}

// A pair with the weight before and after of one edge is stored after the `size` that are listed, and counts where the weights differ; where they do
// not, for the edge stays, the next store goes over it. Answers how many are listed.
fn note(t: u32, h: u32, old: u32, new: u32, list: &mut [u32], size: usize) -> usize
    requires { (t < arc_heads) × (h < arc_heads) × (old < arc_weights) × (new < arc_weights) × (2 * size + 1 < length list.old) × (size ≤ 2 * max_edges) }
    ensures { (list.new ≡ set (set list.old (2 * size) (arc t old)) (2 * size + 1) (arc h new)) × (result ≡ cond (eqb old new) size (size + 1)) }
{
    let at = 2 * size;
    list[at] = arc::arc(t, old);
    list[at + 1] = arc::arc(h, new);
    if old == new { size } else { size + 1 }
}

// The edges of either table that the other lacks, in table order: the table of lists 1 is the old one, that of lists 2 the new one. Answers how many they
// are.
fn list_changes(
    count1: usize,
    tails1: &[u32],
    heads1: &[u32],
    weights1: &[u32],
    count2: usize,
    tails2: &[u32],
    heads2: &[u32],
    weights2: &[u32],
    list: &mut [u32],
) -> usize
    requires { ((n : ℕ) × Tables n count1 tails1.now heads1.now weights1.now count2 tails2.now heads2.now weights2.now) × (2 * (count1 + count2) ≤ length list.old) }
    ensures result_in_bounds { (2 * result ≤ length list.new) × (result ≤ 2 * max_edges) × ((n : ℕ) → Tables n count1 tails1.now heads1.now weights1.now count2 tails2.now heads2.now weights2.now → Inside n (take (2 * result) list.new)) }
    ensures unjoined { Unjoined (edges tails1.now heads1.now weights1.now count1) (edges tails2.now heads2.now weights2.now count2) result list.new }
{
    let mut size = 0;
    let mut i = 0;
    let mut j = 0;
    // kept as a `while`: two tables are walked at once, and a turn goes past an edge of one or of both.
    while i < count1 || j < count2 {
        let gone = is_due(
            i, count1, tails1, heads1, weights1, j, count2, tails2, heads2, weights2,
        );
        let come = is_due(
            j, count2, tails2, heads2, weights2, i, count1, tails1, heads1, weights1,
        );
        let t = either(gone, tails1, i, tails2, j);
        let h = either(gone, heads1, i, heads2, j);
        let old = weight_if(gone, weights1, i);
        let new = weight_if(come, weights2, j);
        size = note(t, h, old, new, list, size);
        i = past(gone, i);
        j = past(come, j);
    }
    size
}

// Whether changes `k` and `j` are of one pair.
fn is_pair(list: &[u32], k: usize, j: usize) -> bool
    requires { (2 * k + 1 < length list.now) × (2 * j + 1 < length list.now) }
    ensures { result ≡ same_pair (before list.now k) (before list.now j) }
{
    let a = 2 * k;
    let b = 2 * j;
    (arc::head(list[a]) == arc::head(list[b])) & (arc::head(list[a + 1]) == arc::head(list[b + 1]))
}

// Whether changes `k` and `k + 1`, of `size`, are all of their pair, one of an old edge and one of a new: the edge is retuned.
#[tactic(auto, using(crate::proofs::Joining::retune_end, crate::proofs::Joining::retune_unpaired, crate::proofs::Joining::retune_behind, crate::proofs::Joining::retune_ahead, crate::proofs::Joining::retune_test))]
fn is_retune(list: &[u32], size: usize, k: usize) -> bool
    requires { (k < size) × (2 * size ≤ length list.now) }
    ensures { result ≡ is_retune list.now size k }
{
    if k + 1 >= size || !is_pair(list, k, k + 1) {
        return false;
    }
    if k > 0 && is_pair(list, k - 1, k) {
        return false;
    }
    if k + 2 < size && is_pair(list, k, k + 2) {
        return false;
    }
    let at = 2 * k;
    let next = 2 * (k + 1);
    if arc::weight(list[at]) == 0 {
        arc::weight(list[next]) != 0
    } else {
        arc::weight(list[next]) == 0
    }
}

// One of two words.
fn chosen(first: bool, a: u32, b: u32) -> u32
    ensures { result ≡ cond first a b }
{
    if first { a } else { b }
}

// Where changes `k` and `k + 1` are a retune, the first gets both weights, and the second none.
fn join_retune(list: &mut [u32], size: usize, k: usize)
    requires { (k < size) × (2 * size ≤ length list.old) }
    ensures { list.new ≡ cond (is_retune list.old size k) (joined list.old k) list.old }
{
    if is_retune(list, size, k) {
        let at = 2 * k;
        let next = 2 * (k + 1);
        let a = list[at];
        let b = list[at + 1];
        let c = list[next];
        let d = list[next + 1];
        let come = arc::weight(a) == 0;
        list[at] = chosen(come, c, a);
        list[at + 1] = chosen(come, b, d);
        list[next] = arc::arc(arc::head(a), 0);
        list[next + 1] = arc::arc(arc::head(b), 0);
    }
}

// Each retune among the `size` changes as one change.
fn join_retunes(list: &mut [u32], size: usize)
    requires { 2 * size ≤ length list.old }
    ensures list_len_unchanged { (length list.new ≡ length list.old) × ((n : ℕ) → Inside n (take (2 * size) list.old) → Inside n (take (2 * size) list.new)) }
    ensures by_index { (n : ℕ) (es fs : List Edge) → rules n es ≡ accept → rules n fs ≡ accept → Unjoined es fs size list.old → Differences es fs (take (2 * size) list.new) }
{
    for k in 0..size {
        join_retune(list, size, k);
    }
}

// What a batch changed, from the table before it, that of lists 1, and the one after it, that of lists 2. Answers how many words of `list`
// it takes.
pub fn differences(
    count1: usize,
    tails1: &[u32],
    heads1: &[u32],
    weights1: &[u32],
    count2: usize,
    tails2: &[u32],
    heads2: &[u32],
    weights2: &[u32],
    list: &mut [u32],
) -> usize
    requires { ((n : ℕ) × Tables n count1 tails1.now heads1.now weights1.now count2 tails2.now heads2.now weights2.now) × (2 * (count1 + count2) ≤ length list.old) }
    ensures upper_bound { (result ≤ length list.new) × ((n : ℕ) → Tables n count1 tails1.now heads1.now weights1.now count2 tails2.now heads2.now weights2.now → Inside n (take result list.new)) }
    ensures differences { Differences (edges tails1.now heads1.now weights1.now count1) (edges tails2.now heads2.now weights2.now count2) (take result list.new) }
{
    let size = list_changes(
        count1, tails1, heads1, weights1, count2, tails2, heads2, weights2, list,
    );
    join_retunes(list, size);
    2 * size
}

// The list for the reversed edges: tails and heads change over.
pub fn turn(list: &mut [u32])
    ensures { ((n : ℕ) → Inside n list.old → Inside n list.new) × ((es fs : List Edge) → Differences es fs list.old → Differences (map reverse es) (map reverse fs) list.new) }
{
    let size = list.len() / 2;
    for k in 0..size {
        let at = 2 * k;
        let a = list[at];
        let b = list[at + 1];
        list[at] = arc::arc(arc::head(b), arc::weight(a));
        list[at + 1] = arc::arc(arc::head(a), arc::weight(b));
    }
}

// Change `k` of the list puts its second word, which has the weight after the batch, beside the arc of its edge as it was before.
fn align_change(k: usize, net: &[u32], old: &[u32], other: &mut [u32])
    requires { (2 * k + 1 < length net.now) × ((n : ℕ) × Inside n net.now × Fit n old.now) × (length old.now ≤ length other.old) }
    ensures { (length other.new ≡ length other.old) × ((j : ℕ) → get_or other.new j 0 ≡ cond (tells_of net.now old.now k j) (get_or net.now (2 * k + 1) 0) (get_or other.old j 0)) }
{
    let at = 2 * k;
    let t = arc::head(net[at]) as usize;
    let b = net[at + 1];
    let a = arc::arc(arc::head(b), arc::weight(net[at]));
    for j in old[t] as usize..old[t + 1] as usize {
        other[j] = chosen(old[j] == a, b, other[j]);
    }
}

// Beside each arc of the index `old` of a table, `other` gets an arc with the weight that stands in its place after the batch, 0 for none: where the
// list has no change of it that is the arc itself.
pub fn align(net: &[u32], old: &[u32], other: &mut [u32])
    requires { ((n : ℕ) × Inside n net.now × Fit n old.now) × (length old.now ≤ length other.old) }
    ensures by_index { (n : ℕ) (es fs : List Edge) → Inside n net.now → Fit n old.now → Own n old.now es → Differences es fs net.now → Faces n es fs old.now other.new }
    ensures other_len_unchanged { length other.new ≡ length other.old }
{
    words::copy(old.len(), old, other, 0);
    let size = net.len() / 2;
    for k in 0..size {
        align_change(k, net, old, other);
    }
}
