// Opening a network: every row is run from where only its landmark has a route, in its place in the lent list. Nothing waits after n rounds.
#![tactic(auto)]

ghost use Rattle.std.specs.Prelude.{◌≡◌, List, map, ◌*◌, ◌<◌, ◌≤◌, length};
ghost use Rattle.graph.specs.Edge.{Edge, reverse, edges};
ghost use Rattle.graph.specs.Index.{Fit, Own};
ghost use Rattle.graph.specs.Refusal.{over};
ghost use Rattle.network.specs.Network.{row_count, flat};
ghost use Rattle.network.specs.Open.{open_row, open_rows, open_call};
ghost use Rattle.calls.specs.Code.{network, Placed, Openable};
ghost use Rattle.open.specs.Code.{open_outcome};

use graph::{Refusal, pack};

// Row `r` of a side is opened and settled in `part`.
fn open_row(r: usize, n: usize, landmarks: &[u32], index: &[u32], part: &mut [u32])
    requires fit { Fit n index.now × Placed n landmarks.now }
    requires r_bound { (r < row_count landmarks.now) × (length part.old ≡ n) }
    ensures { (es : List Edge) → Own n index.now es → part.new ≡ (open_row n landmarks.now es r).words }
{
    let p = calls::row_property(r);
    let i = calls::row_landmark(r);
    let s = landmarks[i] as usize;
    run::values_from(p, n, s, index, part);
}

// Every row of a side, one after the other in `out`; words past the rows stay.
fn open_rows(n: usize, landmarks: &[u32], index: &[u32], out: &mut [u32])
    requires fit { Fit n index.now × Placed n landmarks.now }
    requires n_in_bounds { row_count landmarks.now * n ≤ length out.old }
    ensures { (es : List Edge) → Own n index.now es → out.new ≡ over (flat (open_rows n landmarks.now es)) out.old }
{
    let rows = landmarks.len() * property::PROPERTIES;
    for r in 0..rows {
        let start = r * n;
        let end = start + n;
        open_row(r, n, landmarks, index, &mut out[start..end]);
    }
}

// The forward rows, by the index of the table.
fn open_forward(
    n: usize,
    count: usize,
    landmarks: &[u32],
    tails: &[u32],
    heads: &[u32],
    weights: &[u32],
    out: &mut [u32],
)
    requires openable { Openable n count landmarks.now tails.now heads.now weights.now }
    requires n_in_bounds { row_count landmarks.now * n ≤ length out.old }
    ensures { out.new ≡ over (flat (open_rows n landmarks.now (edges tails.now heads.now weights.now count))) out.old }
{
    let mut free = [0u32; graph::PLACE_WORDS];
    let mut index = [0u32; graph::INDEX_WORDS];
    pack::index(n, count, tails, heads, weights, &mut free, &mut index);
    open_rows(n, landmarks, &index, out);
}

// The backward rows, by the index of the reversed table.
fn open_backward(
    n: usize,
    count: usize,
    landmarks: &[u32],
    tails: &[u32],
    heads: &[u32],
    weights: &[u32],
    out: &mut [u32],
)
    requires openable { Openable n count landmarks.now tails.now heads.now weights.now }
    requires n_in_bounds { row_count landmarks.now * n ≤ length out.old }
    ensures { out.new ≡ over (flat (open_rows n landmarks.now (map reverse (edges tails.now heads.now weights.now count)))) out.old }
{
    let mut free = [0u32; graph::PLACE_WORDS];
    let mut index = [0u32; graph::INDEX_WORDS];
    pack::index_reversed(n, count, tails, heads, weights, &mut free, &mut index);
    open_rows(n, landmarks, &index, out);
}

// Opening a network: refused, or the rows of both sides are written to their lists; words past the rows stay.
pub fn open(
    n: u32,
    landmarks: &[u32],
    tails: &[u32],
    heads: &[u32],
    weights: &[u32],
    count: u32,
    forward: &mut [u32],
    backward: &mut [u32],
) -> Result<(), Refusal>
    ensures { open_outcome result tails.now heads.now weights.now forward.new backward.new ≡ open_call n landmarks.now (network tails.now heads.now weights.now forward.old backward.old count) }
{
    calls::judge_all(
        n, landmarks, tails, heads, weights, count, forward, backward,
    )?;
    let size = n as usize;
    let edges = count as usize;
    open_forward(size, edges, landmarks, tails, heads, weights, forward);
    open_backward(size, edges, landmarks, tails, heads, weights, backward);
    Ok(())
}
