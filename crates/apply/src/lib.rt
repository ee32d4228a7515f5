// A batch with the new table at hand, in lists 2: nothing can refuse it any more.
#![tactic(auto)]

ghost use Rattle.std.specs.Prelude.{◌≡◌};
ghost use Rattle.graph.specs.Edge.{edges};
ghost use Rattle.calls.specs.Code.{network, Tabled};
ghost use Rattle.sides.specs.Code.{Fair};
ghost use Rattle.apply.specs.Code.{apply_call, batch_outcome};

use graph::{Refusal, pack};

// The new count, and affected vertices and stores over all rows.
#[derive(Drop)]
pub struct Report {
    pub count: u32,
    pub affected: u64,
    pub stores: u64,
}

// A batch with the new table at hand: its changes are listed and both tables indexed, then all rows are run in their place and the table is
// written. Every run ends within n rounds, whatever words the rows held: so number 13 never comes, and the runs need no trial first.
pub fn apply(
    n: u32,
    landmarks: &[u32],
    tails: &mut [u32],
    heads: &mut [u32],
    weights: &mut [u32],
    count: usize,
    forward: &mut [u32],
    backward: &mut [u32],
    tails2: &[u32],
    heads2: &[u32],
    weights2: &[u32],
    count2: usize,
) -> Result<Report, Refusal>
    requires fair { Fair n landmarks.now (network tails.old heads.old weights.old forward.old backward.old count) }
    requires tabled { Tabled n count2 tails2.now heads2.now weights2.now }
    ensures { batch_outcome result tails.new heads.new weights.new forward.new backward.new ≡ apply_call n landmarks.now (network tails.old heads.old weights.old forward.old backward.old count) (edges tails2.now heads2.now weights2.now count2) }
{
    let size = n as usize;
    let mut net = [0u32; compare::NET_WORDS];
    let changed = compare::differences(
        count, tails, heads, weights, count2, tails2, heads2, weights2, &mut net,
    );
    let mut free = [0u32; graph::PLACE_WORDS];
    let mut old = [0u32; graph::INDEX_WORDS];
    let mut rold = [0u32; graph::INDEX_WORDS];
    let mut new = [0u32; graph::INDEX_WORDS];
    let mut rnew = [0u32; graph::INDEX_WORDS];
    pack::index(size, count, tails, heads, weights, &mut free, &mut old);
    pack::index_reversed(size, count, tails, heads, weights, &mut free, &mut rold);
    pack::index(size, count2, tails2, heads2, weights2, &mut free, &mut new);
    pack::index_reversed(size, count2, tails2, heads2, weights2, &mut free, &mut rnew);
    let rows = sides::batch_sides(
        size,
        landmarks,
        &mut net[..changed],
        &old,
        &rold,
        &new,
        &rnew,
        forward,
        backward,
    );
    rewrite::write_table(count2, tails2, heads2, weights2, tails, heads, weights);
    Ok(Report {
        count: count2 as u32,
        affected: rows.affected,
        stores: rows.stores,
    })
}
