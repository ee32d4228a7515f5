// The settled check: the first edge that could still better a word.
#![tactic(auto)]

ghost use Rattle.std.specs.Prelude.{◌≡◌, cond, ◌+◌, ◌*◌, ◌<◌, ◌≤◌, length, get_or, eqb};
ghost use Rattle.graph.specs.Refusal.{accept};
ghost use Rattle.graph.specs.Edge.{edge, reverse};
ghost use Rattle.graph.specs.Code.{edge_at};
ghost use Rattle.run.specs.Run.{relaxable};
ghost use Rattle.network.specs.Network.{row, property_of, faults};
ghost use Rattle.network.specs.Settled.{check, settled_call};
ghost use Rattle.settled_check.specs.Code.{spotted, checking};
ghost use Rattle.calls.specs.Code.{network};

use graph::Refusal;

// Where an edge could still better a word: a side (0 forward; else backward), a row of its list and a record of the table.
#[derive(Clone, Copy)]
pub struct Spot {
    pub side: u32,
    pub row: usize,
    pub record: usize,
}

// Whether going along an edge would better its head's word in row `r` of a row list.
fn is_relaxable(n: u32, words: &[u32], r: usize, t: u32, h: u32, w: u32) -> bool
    requires { (t < n) × (h < n) × (r * n + n ≤ length words.now) }
    ensures { result ≡ relaxable (property_of r) (row n r words.now) (edge t h w) }
{
    let p = calls::row_property(r);
    let start = r * (n as usize);
    let i = start + t as usize;
    let j = start + h as usize;
    let v = property::along(p, words[i], w);
    property::better(p, v, words[j])
}

// Whether record `j` could still better a word of row `r` of a side (0 forward; else backward, by reversed edges).
fn is_spot(
    n: u32,
    side: u32,
    r: usize,
    j: usize,
    tails: &[u32],
    heads: &[u32],
    weights: &[u32],
    forward: &[u32],
    backward: &[u32],
) -> bool
    requires j_in_bounds { (j < length tails.now) × (j < length heads.now) × (j < length weights.now) }
    requires j_bound { (get_or tails.now j 0 < n) × (get_or heads.now j 0 < n) }
    requires n_in_bounds { (r * n + n ≤ length forward.now) × (r * n + n ≤ length backward.now) }
    ensures { let e = edge_at tails.now heads.now weights.now j in result ≡ relaxable (property_of r) (row n r (cond (eqb side 0) forward.now backward.now)) (cond (eqb side 0) e (reverse e)) }
{
    let t = tails[j];
    let h = heads[j];
    let w = weights[j];
    if side == 0 {
        return is_relaxable(n, forward, r, t, h, w);
    }
    is_relaxable(n, backward, r, h, t, w)
}

// The first spot, in order forward, backward, then row, then record.
fn first_spot(
    n: u32,
    landmarks: &[u32],
    tails: &[u32],
    heads: &[u32],
    weights: &[u32],
    count: u32,
    forward: &[u32],
    backward: &[u32],
) -> Option<Spot>
    requires { faults n landmarks.now (network tails.now heads.now weights.now forward.now backward.now count) ≡ accept }
    ensures { spotted result ≡ check n landmarks.now (network tails.now heads.now weights.now forward.now backward.now count) }
{
    let rows = landmarks.len() * property::PROPERTIES;
    let records = count as usize;
    let mut found = None;
    'sides: for side in 0..2 {
        for r in 0..rows {
            for j in 0..records {
                if is_spot(n, side, r, j, tails, heads, weights, forward, backward) {
                    found = Some(Spot {
                        side,
                        row: r,
                        record: j,
                    });
                    break 'sides;
                }
            }
        }
    }
    found
}

// Where an edge could still better a word, or that there is no such edge.
pub fn find_relaxable(
    n: u32,
    landmarks: &[u32],
    tails: &[u32],
    heads: &[u32],
    weights: &[u32],
    count: u32,
    forward: &[u32],
    backward: &[u32],
) -> Result<Option<Spot>, Refusal>
    ensures { checking result ≡ settled_call n landmarks.now (network tails.now heads.now weights.now forward.now backward.now count) }
{
    calls::judge_all(
        n, landmarks, tails, heads, weights, count, forward, backward,
    )?;
    Ok(first_spot(
        n, landmarks, tails, heads, weights, count, forward, backward,
    ))
}
