// The changes of a batch, item by item, on a scratch table: each is judged against the edges as earlier ones left them.
#![tactic(auto)]

pub mod lay;
pub mod retune;

ghost use Rattle.std.specs.Prelude.{◌≡◌, not, ◌&&◌, cond, List, ◌*◌, ◌≤◌, length, eqb};
ghost use Rattle.graph.specs.Limits.{max_batch};
ghost use Rattle.graph.specs.Refusal.{accept};
ghost use Rattle.graph.specs.Edge.{edge, edges, among};
ghost use Rattle.graph.specs.Table.{is_weight};
ghost use Rattle.graph.specs.Code.{told};
ghost use Rattle.network.specs.Change.{Change, edit, edits, item, items, words, against};
ghost use Rattle.items.specs.Code.{change, verdict, Laid, Leaves};
ghost use Rattle.calls.specs.Code.{Tabled};

use graph::{Refusal, edit, rules};

// A batch in one list: the kinds of the longest batch, and where its tails, heads, weights and old weights start.
pub const TAILS: usize = graph::MAX_BATCH;

pub const HEADS: usize = 2 * graph::MAX_BATCH;

pub const WEIGHTS: usize = 3 * graph::MAX_BATCH;

pub const OLDS: usize = 4 * graph::MAX_BATCH;

pub const BATCH_WORDS: usize = 5 * graph::MAX_BATCH;

// Whether an old weight suits its change: an update's is 1 to `MAX_WEIGHT`, any other's 0.
fn is_suited(kind: u32, old: u32) -> bool
    ensures { result ≡ cond (eqb kind 3) (is_weight old) (eqb old 0) }
{
    if kind == 3 {
        rules::is_weight(old)
    } else {
        old == 0
    }
}

// Numbers 6 to 9 of a change: those of its own words.
fn judge_words(
    n: u32,
    kind: u32,
    t: u32,
    h: u32,
    w: u32,
    old: u32,
    place: usize,
) -> Result<(), Refusal>
    ensures { told result ≡ words n place (change kind t h w old) }
{
    if t >= n || h >= n {
        return Err(Refusal::Vertex(place));
    }
    if kind != 1 && kind != 2 && kind != 3 {
        return Err(Refusal::Kind(place));
    }
    if t == h {
        return Err(Refusal::Loop(place));
    }
    rules::refuse_if(
        !(rules::is_weight(w) & is_suited(kind, old)),
        Refusal::Weight(place),
    )
}

// An insert whose own words are good: numbers 10 and 12, or one edge more.
fn insert_item(
    n: u32,
    t: u32,
    h: u32,
    w: u32,
    tails: &mut [u32],
    heads: &mut [u32],
    weights: &mut [u32],
    count: usize,
    place: usize,
) -> Result<usize, Refusal>
    requires tabled { Tabled n count tails.old heads.old weights.old }
    requires w_value { words n place (change 1 t h w 0) ≡ accept }
    ensures result_value { verdict result ≡ against place (edges tails.old heads.old weights.old count) (change 1 t h w 0) }
    ensures leaves { Leaves n result tails.new heads.new weights.new (edit (edges tails.old heads.old weights.old count) (change 1 t h w 0)) }
{
    if let Some(_) = edit::find(n, t, h, w, tails, heads, weights, count) {
        return Err(Refusal::Present(place));
    }
    if count >= graph::MAX_EDGES {
        return Err(Refusal::Full(place));
    }
    edit::insert(n, t, h, w, tails, heads, weights, count);
    Ok(count + 1)
}

// A delete whose own words are good looks for its edge, and goes no further unless it is found: number 11, or one edge less.
fn delete_item(
    n: u32,
    t: u32,
    h: u32,
    w: u32,
    tails: &mut [u32],
    heads: &mut [u32],
    weights: &mut [u32],
    count: usize,
    place: usize,
) -> Result<usize, Refusal>
    requires tabled { Tabled n count tails.old heads.old weights.old }
    requires w_value { words n place (change 2 t h w 0) ≡ accept }
    ensures result_value { verdict result ≡ against place (edges tails.old heads.old weights.old count) (change 2 t h w 0) }
    ensures leaves { Leaves n result tails.new heads.new weights.new (edit (edges tails.old heads.old weights.old count) (change 2 t h w 0)) }
{
    let Some(at) = edit::find(n, t, h, w, tails, heads, weights, count) else {
        return Err(Refusal::Absent(place));
    };
    edit::delete_at(at, tails, heads, weights, count);
    Ok(count - 1)
}

// Whether an update to the weight `w` from another one finds an edge of that weight: number 10.
fn is_taken(
    n: u32,
    t: u32,
    h: u32,
    w: u32,
    old: u32,
    tails: &[u32],
    heads: &[u32],
    weights: &[u32],
    count: usize,
) -> bool
    requires { Tabled n count tails.now heads.now weights.now }
    ensures { result ≡ (not (eqb w old) && among (edges tails.now heads.now weights.now count) (edge t h w)) }
{
    if w == old {
        return false;
    }
    edit::find(n, t, h, w, tails, heads, weights, count).is_some()
}

// An update whose own words are good: number 10; then it looks for the edge of its old weight, and goes no further unless it is found: number 11, or that
// edge has the weight `w`.
fn update_item(
    n: u32,
    t: u32,
    h: u32,
    w: u32,
    old: u32,
    tails: &mut [u32],
    heads: &mut [u32],
    weights: &mut [u32],
    count: usize,
    place: usize,
) -> Result<usize, Refusal>
    requires tabled { Tabled n count tails.old heads.old weights.old }
    requires value { words n place (change 3 t h w old) ≡ accept }
    ensures result_value { verdict result ≡ against place (edges tails.old heads.old weights.old count) (change 3 t h w old) }
    ensures leaves { Leaves n result tails.new heads.new weights.new (edit (edges tails.old heads.old weights.old count) (change 3 t h w old)) }
{
    if is_taken(n, t, h, w, old, tails, heads, weights, count) {
        return Err(Refusal::Present(place));
    }
    let Some(at) = edit::find(n, t, h, old, tails, heads, weights, count) else {
        return Err(Refusal::Absent(place));
    };
    retune::set_weight(n, at, w, tails, heads, weights, count);
    Ok(count)
}

// One change of a batch.
fn apply_item(
    n: u32,
    kind: u32,
    t: u32,
    h: u32,
    w: u32,
    old: u32,
    tails: &mut [u32],
    heads: &mut [u32],
    weights: &mut [u32],
    count: usize,
    place: usize,
) -> Result<usize, Refusal>
    requires { Tabled n count tails.old heads.old weights.old }
    ensures result_value { verdict result ≡ item n place (edges tails.old heads.old weights.old count) (change kind t h w old) }
    ensures leaves { Leaves n result tails.new heads.new weights.new (edit (edges tails.old heads.old weights.old count) (change kind t h w old)) }
{
    judge_words(n, kind, t, h, w, old, place)?;
    if kind == 1 {
        return insert_item(n, t, h, w, tails, heads, weights, count, place);
    }
    if kind == 3 {
        return update_item(n, t, h, w, old, tails, heads, weights, count, place);
    }
    delete_item(n, t, h, w, tails, heads, weights, count, place)
}

// The changes of a batch of `size`, laid in one list, in order, on a scratch table: the new count, or the first that is refused.
pub fn apply_items(
    n: u32,
    lists: &[u32],
    size: usize,
    tails: &mut [u32],
    heads: &mut [u32],
    weights: &mut [u32],
    count: usize,
) -> Result<usize, Refusal>
    requires { Tabled n count tails.old heads.old weights.old × (size ≤ max_batch) × (length lists.now ≡ 5 * max_batch) }
    ensures { (cs : List Change) → Laid size cs lists.now → (verdict result ≡ items n 0 (edges tails.old heads.old weights.old count) cs) × Leaves n result tails.new heads.new weights.new (edits (edges tails.old heads.old weights.old count) cs) }
{
    let mut m = count;
    for k in 0..size {
        m = apply_item(
            n,
            lists[k],
            lists[TAILS + k],
            lists[HEADS + k],
            lists[WEIGHTS + k],
            lists[OLDS + k],
            tails,
            heads,
            weights,
            m,
            k,
        )?;
    }
    Ok(m)
}
