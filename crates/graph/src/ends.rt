// The first edge of each tail of a table that keeps the rules: tails never fall, so each edge stores where its tail ends so far, and no store
// waits for the one before it.
ghost use Rattle.std.specs.Prelude.{◌≡◌, List, ℕ, ◌+◌, ◌<◌, ◌≤◌, length, get_or, take};
ghost use Rattle.graph.specs.Limits.{max_edges};
ghost use Rattle.graph.specs.Code.{Keyed, Firsts};
ghost use Rattle.graph.specs.Parted.{Ascending, Ends, Parted};

use super::words;

// Each key stores how many keys there are up to it, at the word after its own.
fn store_ends(count: usize, keys: &[u32], ends: &mut [u32])
    requires count_le_max_edges { (count ≤ max_edges) × (count ≤ length keys.now) × Ascending count keys.now }
    requires by_index { ((k : ℕ) → k < count → get_or keys.now k 0 + 1 < length ends.old) × ((u : ℕ) → get_or ends.old u 0 ≡ 0) }
    ensures { Ends count keys.now ends.new }
{
    for k in 0..count {
        ends[keys[k] as usize + 1] = k as u32 + 1;
    }
}

// Each of the first `n` + 1 words becomes the greatest of the words up to it.
fn carry_ends(n: usize, ends: &mut [u32])
    requires { n < length ends.old }
    ensures { (m : ℕ) (ks : List ℕ) → Ends m ks ends.old → (u : ℕ) → u ≤ n → Parted m ks u (get_or ends.new u 0) }
{
    for k in 0..n {
        ends[k + 1] = ends[k].max(ends[k + 1]);
    }
}

// Where the edges of each vertex start, by tails that never fall.
pub fn firsts(n: usize, count: usize, keys: &[u32], firsts: &mut [u32])
    requires { Keyed n count keys.now firsts.old × Ascending count keys.now }
    ensures { Firsts n (take count keys.now) firsts.new }
{
    words::fill(firsts, 0);
    store_ends(count, keys, firsts);
    carry_ends(n, firsts);
}
