// A table written over another, as a batch leaves it.
#![tactic(auto)]

ghost use Rattle.std.specs.Prelude.{◌≡◌, ◌++◌, ◌-◌, ◌≤◌, length, take, replicate};
ghost use Rattle.graph.specs.Limits.{max_edges};
ghost use Rattle.graph.specs.Refusal.{over};
ghost use Rattle.graph.specs.Edge.{edges};
ghost use Rattle.graph.specs.Code.{Room, columns};
ghost use Rattle.network.specs.Batch.{rewritten};

use graph::words;

// The first `count` words of `new` over those of `list`, then zeros up to 2,048.
fn write_words(count: usize, new: &[u32], list: &mut [u32])
    requires { (count ≤ max_edges) × (count ≤ length new.now) × (max_edges ≤ length list.old) }
    ensures { list.new ≡ over (take count new.now ++ replicate (max_edges - count) 0) list.old }
{
    words::copy(count, new, list, 0);
    let end = graph::MAX_EDGES;
    words::fill(&mut list[count..end], 0);
}

// The new table, of lists 2, over the old one: its records, then zeros up to 2,048.
pub fn write_table(
    count2: usize,
    tails2: &[u32],
    heads2: &[u32],
    weights2: &[u32],
    tails1: &mut [u32],
    heads1: &mut [u32],
    weights1: &mut [u32],
)
    requires { (count2 ≤ max_edges) × Room count2 tails2.now heads2.now weights2.now × Room max_edges tails1.old heads1.old weights1.old }
    ensures { columns tails1.new heads1.new weights1.new ≡ rewritten (edges tails2.now heads2.now weights2.now count2) (columns tails1.old heads1.old weights1.old) }
{
    write_words(count2, tails2, tails1);
    write_words(count2, heads2, heads1);
    write_words(count2, weights2, weights1);
}
