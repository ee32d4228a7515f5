// A batch as it is lent: a slice of change records. Thin walkers lay the records in one list, and all else is done on plain numbers.
#![tactic(auto)]

ghost use Rattle.std.specs.Prelude.{◌≡◌, map, ◌*◌, ◌≤◌, length};
ghost use Rattle.graph.specs.Limits.{max_batch};
ghost use Rattle.network.specs.Batch.{batch_call};
ghost use Rattle.calls.specs.Code.{network};
ghost use Rattle.apply.specs.Code.{batch_outcome};
ghost use Rattle.batch.specs.Code.{recorded, copied};

use apply::Report;
use graph::Refusal;
use items::lay;

// A change: kind 1 adds the edge from `tail` to `head` of weight `weight`, 2 takes it, and 3 gives the one of weight `old` the weight `weight`; `old` is 0 for
// the others.
#[derive(Clone, Copy)]
pub struct Change {
    pub kind: u32,
    pub tail: u32,
    pub head: u32,
    pub weight: u32,
    pub old: u32,
}

// The first `k` changes are copied to the five lists.
pub fn copy_changes(changes: &[Change], k: usize, lists: &mut [u32])
    requires { (k ≤ length changes.now) × (k ≤ max_batch) × (length lists.old ≡ 5 * max_batch) }
    ensures { lists.new ≡ copied changes.now lists.old k }
{
    for (i, c) in changes[..k].iter().enumerate() {
        lay::put_change(lists, i, c.kind, c.tail, c.head, c.weight, c.old);
    }
}

// A batch of changes, all or none: refused, or the table and all rows are as they are after it, and the report says so.
pub fn batch(
    n: u32,
    landmarks: &[u32],
    tails: &mut [u32],
    heads: &mut [u32],
    weights: &mut [u32],
    count: u32,
    forward: &mut [u32],
    backward: &mut [u32],
    changes: &[Change],
) -> Result<Report, Refusal>
    ensures { batch_outcome result tails.new heads.new weights.new forward.new backward.new ≡ batch_call n landmarks.now (network tails.old heads.old weights.old forward.old backward.old count) (map recorded changes.now) }
{
    let mut lists = [0u32; items::BATCH_WORDS];
    copy_changes(changes, changes.len().min(graph::MAX_BATCH), &mut lists);
    plain_batch::batch_laid(
        n,
        landmarks,
        tails,
        heads,
        weights,
        count,
        forward,
        backward,
        &lists,
        changes.len(),
    )
}
