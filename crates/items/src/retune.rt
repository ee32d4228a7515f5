// Another weight for an edge of a table. Only weights move, and only those of its own pair: what stands between the old place of the edge and its new one
// is of that pair.
ghost use Rattle.std.specs.Prelude.{◌≡◌, false, ◌<◌, length, get_or};
ghost use Rattle.graph.specs.Edge.{edge, edges, among};
ghost use Rattle.graph.specs.Table.{insert};
ghost use Rattle.graph.specs.Code.{insert_at, delete_at};
ghost use Rattle.calls.specs.Code.{Tabled};

use graph::edit;

// The word at index `i` is struck and `w` put in at index `j`: the words between move by one.
fn move_word(words: &mut [u32], i: usize, j: usize, w: u32)
    requires { (i < length words.old) × (j < length words.old) }
    ensures { words.new ≡ insert_at j w (delete_at i words.old) }
{
    for k in i..j {
        words[k] = words[k + 1];
    }
    for k in (j..i).rev() {
        words[k + 1] = words[k];
    }
    words[j] = w;
}

// Edge `i` gets the weight `w`, which no other edge of its pair has, and stands in table order.
pub fn set_weight(
    n: u32,
    i: usize,
    w: u32,
    tails: &[u32],
    heads: &[u32],
    weights: &mut [u32],
    count: usize,
)
    requires i_lt_count { (i < count) × Tabled n count tails.now heads.now weights.old }
    requires w_value { among (delete_at i (edges tails.now heads.now weights.old count)) (edge (get_or tails.now i 0) (get_or heads.now i 0) w) ≡ false }
    ensures { edges tails.now heads.now weights.new count ≡ insert (edge (get_or tails.now i 0) (get_or heads.now i 0) w) (delete_at i (edges tails.now heads.now weights.old count)) }
{
    let p = edit::position(n, tails[i], heads[i], w, tails, heads, weights, count);
    let j = if i < p { p - 1 } else { p };
    move_word(weights, i, j, w);
}
