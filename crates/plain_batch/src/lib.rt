// A batch on plain numbers, its changes laid in one list: numbers 1 to 4, its changes on a scratch table, then every row of the network.
#![tactic(auto)]

ghost use Rattle.std.specs.Prelude.{◌≡◌, List, ◌-◌, ◌*◌, length, take, drop};
ghost use Rattle.graph.specs.Limits.{max_batch};
ghost use Rattle.graph.specs.Refusal.{accept};
ghost use Rattle.graph.specs.Edge.{edges};
ghost use Rattle.graph.specs.Code.{told, Room};
ghost use Rattle.network.specs.Batch.{batch_call, batch_faults};
ghost use Rattle.network.specs.Change.{Change};
ghost use Rattle.calls.specs.Code.{network};
ghost use Rattle.items.specs.Code.{changes_of, Laid};
ghost use Rattle.apply.specs.Code.{batch_outcome};

use apply::Report;
use graph::{Refusal, words};
use items::lay;

// Numbers 1 to 4 of a batch of `size` changes.
fn judge_batch(
    n: u32,
    landmarks: &[u32],
    tails: &[u32],
    heads: &[u32],
    weights: &[u32],
    count: u32,
    forward: &[u32],
    backward: &[u32],
    size: usize,
) -> Result<(), Refusal>
    ensures { told result ≡ batch_faults n landmarks.now (network tails.now heads.now weights.now forward.now backward.now count) size }
{
    if size > graph::MAX_BATCH {
        return Err(Refusal::Size);
    }
    calls::judge_all(
        n, landmarks, tails, heads, weights, count, forward, backward,
    )
}

// The records of a table, to the front of lists 2.
pub fn copy_table(
    count: usize,
    tails: &[u32],
    heads: &[u32],
    weights: &[u32],
    tails2: &mut [u32],
    heads2: &mut [u32],
    weights2: &mut [u32],
)
    requires { Room count tails.now heads.now weights.now × Room count tails2.old heads2.old weights2.old }
    ensures { edges tails2.new heads2.new weights2.new count ≡ edges tails.now heads.now weights.now count }
{
    words::copy(count, tails, tails2, 0);
    words::copy(count, heads, heads2, 0);
    words::copy(count, weights, weights2, 0);
}

// A batch of `size` changes, laid in one list, that numbers 1 to 4 let pass. They are tried on a scratch table, of lists 2.
fn try_changes(
    n: u32,
    landmarks: &[u32],
    tails: &mut [u32],
    heads: &mut [u32],
    weights: &mut [u32],
    records: usize,
    forward: &mut [u32],
    backward: &mut [u32],
    lists: &[u32],
    size: usize,
) -> Result<Report, Refusal>
    requires { (length lists.now ≡ 5 * max_batch) × (batch_faults n landmarks.now (network tails.old heads.old weights.old forward.old backward.old records) size ≡ accept) }
    ensures { (cs : List Change) → Laid size cs lists.now → batch_outcome result tails.new heads.new weights.new forward.new backward.new ≡ batch_call n landmarks.now (network tails.old heads.old weights.old forward.old backward.old records) cs }
{
    let mut tails2 = [0u32; graph::MAX_EDGES];
    let mut heads2 = [0u32; graph::MAX_EDGES];
    let mut weights2 = [0u32; graph::MAX_EDGES];
    copy_table(
        records,
        tails,
        heads,
        weights,
        &mut tails2,
        &mut heads2,
        &mut weights2,
    );
    let count2 = items::apply_items(
        n,
        lists,
        size,
        &mut tails2,
        &mut heads2,
        &mut weights2,
        records,
    )?;
    apply::apply(
        n, landmarks, tails, heads, weights, records, forward, backward, &tails2, &heads2,
        &weights2, count2,
    )
}

// A batch of `size` changes, of which the list holds as many as it has room for: more are refused by number 1.
pub fn batch_laid(
    n: u32,
    landmarks: &[u32],
    tails: &mut [u32],
    heads: &mut [u32],
    weights: &mut [u32],
    count: u32,
    forward: &mut [u32],
    backward: &mut [u32],
    lists: &[u32],
    size: usize,
) -> Result<Report, Refusal>
    requires { length lists.now ≡ 5 * max_batch }
    ensures { (cs : List Change) → Laid size cs lists.now → batch_outcome result tails.new heads.new weights.new forward.new backward.new ≡ batch_call n landmarks.now (network tails.old heads.old weights.old forward.old backward.old count) cs }
{
    judge_batch(
        n, landmarks, tails, heads, weights, count, forward, backward, size,
    )?;
    try_changes(
        n,
        landmarks,
        tails,
        heads,
        weights,
        count as usize,
        forward,
        backward,
        lists,
        size,
    )
}

// The batch of the changes from index `from` to index `to`, of those that are there, of five words each: for callers that can lend no slice of records.
pub fn batch_part(
    n: u32,
    landmarks: &[u32],
    tails: &mut [u32],
    heads: &mut [u32],
    weights: &mut [u32],
    count: u32,
    forward: &mut [u32],
    backward: &mut [u32],
    changes: &[[u32; 5]],
    from: usize,
    to: usize,
) -> Result<Report, Refusal>
    ensures { batch_outcome result tails.new heads.new weights.new forward.new backward.new ≡ batch_call n landmarks.now (network tails.old heads.old weights.old forward.old backward.old count) (take (to - from) (drop from (changes_of changes.now))) }
{
    let end = to.min(changes.len());
    let start = from.min(end);
    let size = end - start;
    let mut lists = [0u32; items::BATCH_WORDS];
    lay::lay(changes, start, size, &mut lists);
    batch_laid(
        n, landmarks, tails, heads, weights, count, forward, backward, &lists, size,
    )
}
