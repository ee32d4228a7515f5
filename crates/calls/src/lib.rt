// Refusals 2 and 3 of a network and of the lists for an answer, the chains of refusals that its calls share, and the rows: where one starts, its property, its landmark.
#![tactic(auto)]

ghost use Rattle.std.specs.Prelude.{◌≡◌, suc, ◌*◌, ◌/◌, ◌%◌, ◌<◌, ◌≤◌, drop, ltb};
ghost use Rattle.property.specs.Property.{properties, is_property};
ghost use Rattle.graph.specs.Limits.{max_vertices, max_edges, max_landmarks};
ghost use Rattle.graph.specs.Refusal.{◌▷◌};
ghost use Rattle.graph.specs.Table.{short_table, table};
ghost use Rattle.graph.specs.Code.{told, Room, columns};
ghost use Rattle.network.specs.Network.{is_in, are_landmarks, short_rows};
ghost use Rattle.network.specs.Network as number;
ghost use Rattle.network.specs.Query.{short_words, row_at};
ghost use Rattle.calls.specs.Code.{row_lists, network};

use graph::{Refusal, rules};
use property::PROPERTIES;

// Whether `v` is among the vertices from index `from` on.
pub fn is_in(v: u32, vertices: &[u32], from: usize) -> bool
    ensures { result ≡ is_in v (drop from vertices.now) }
{
    for i in from..vertices.len() {
        if v == vertices[i] {
            return true;
        }
    }
    false
}

// Whether the vertices are below `n` and different.
fn are_landmarks(n: u32, vertices: &[u32]) -> bool
    ensures { result ≡ are_landmarks n vertices.now }
{
    for (i, &v) in vertices.iter().enumerate() {
        if v >= n {
            return false;
        }
        if is_in(v, vertices, i + 1) {
            return false;
        }
    }
    true
}

// Number 3: no landmark, over `MAX_LANDMARKS`, not a vertex, repeated.
pub fn judge_landmarks(n: u32, landmarks: &[u32]) -> Result<(), Refusal>
    ensures { told result ≡ number.landmarks n landmarks.now }
{
    rules::refuse_if(
        (landmarks.len() == 0) | (landmarks.len() > graph::MAX_LANDMARKS)
            || !are_landmarks(n, landmarks),
        Refusal::Landmarks,
    )
}

// Whether a list has fewer words than a row of `n` words for each landmark and property. The quotient is compared: the product may not fit.
fn is_short(words: usize, landmarks: usize, n: u32) -> bool
    ensures { result ≡ ltb words (landmarks * properties * n) }
{
    if n == 0 {
        return false;
    }
    words / (PROPERTIES * (n as usize)) < landmarks
}

// Number 2: a row list has fewer than landmarks × properties × n words.
pub fn judge_rows(
    n: u32,
    landmarks: &[u32],
    forward: &[u32],
    backward: &[u32],
) -> Result<(), Refusal>
    ensures { told result ≡ short_rows n landmarks.now (row_lists forward.now backward.now) }
{
    let count = landmarks.len();
    rules::refuse_if(
        is_short(forward.len(), count, n) || is_short(backward.len(), count, n),
        Refusal::Short,
    )
}

// Number 2 of the lists of a network.
pub fn judge_lists(
    n: u32,
    landmarks: &[u32],
    tails: &[u32],
    heads: &[u32],
    weights: &[u32],
    forward: &[u32],
    backward: &[u32],
) -> Result<(), Refusal>
    ensures { told result ≡ (short_table (columns tails.now heads.now weights.now) ▷ short_rows n landmarks.now (row_lists forward.now backward.now)) }
{
    rules::judge_lengths(tails, heads, weights)?;
    judge_rows(n, landmarks, forward, backward)
}

// Numbers 3 and 4, where the table's lists are long enough.
pub fn judge_network(
    n: u32,
    landmarks: &[u32],
    tails: &[u32],
    heads: &[u32],
    weights: &[u32],
    count: u32,
) -> Result<(), Refusal>
    requires { Room max_edges tails.now heads.now weights.now }
    ensures { told result ≡ (number.landmarks n landmarks.now ▷ table n (columns tails.now heads.now weights.now) count) }
{
    judge_landmarks(n, landmarks)?;
    rules::judge_table(n, tails, heads, weights, count)
}

// Numbers 1 to 4 of a network.
pub fn judge_all(
    n: u32,
    landmarks: &[u32],
    tails: &[u32],
    heads: &[u32],
    weights: &[u32],
    count: u32,
    forward: &[u32],
    backward: &[u32],
) -> Result<(), Refusal>
    ensures { told result ≡ number.faults n landmarks.now (network tails.now heads.now weights.now forward.now backward.now count) }
{
    rules::judge_size(n)?;
    judge_lists(n, landmarks, tails, heads, weights, forward, backward)?;
    judge_network(n, landmarks, tails, heads, weights, count)
}

// Number 2: of two lists lent for the answer one has fewer than `n` words.
pub fn judge_outputs(n: u32, a: usize, b: usize) -> Result<(), Refusal>
    ensures { told result ≡ short_words n a b }
{
    let words = n as usize;
    rules::refuse_if((a < words) | (b < words), Refusal::Short)
}

// Whether `p` is the number of a property.
pub fn is_property(p: u32) -> bool
    ensures { result ≡ is_property p }
{
    (0 < p) & (p as usize <= PROPERTIES)
}

// Where the row of landmark `i` of the list for property `p` starts in a row list.
pub fn row_start(p: u32, n: usize, i: usize) -> usize
    requires { (0 < p) × (p ≤ properties) × (n ≤ max_vertices) × (i < max_landmarks) }
    ensures { result ≡ row_at i p * n }
{
    (i * PROPERTIES + (p as usize - 1)) * n
}

// The number of the property of row `r` of a row list: `property_of r` is the property of that number.
pub fn row_property(r: usize) -> u32
    ensures { result ≡ suc (r % properties) }
{
    (r % PROPERTIES) as u32 + 1
}

// The place, among the landmarks, of the landmark of row `r` of a row list.
pub fn row_landmark(r: usize) -> usize
    ensures { result ≡ r / properties }
{
    r / PROPERTIES
}
