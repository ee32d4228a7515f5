// What a batch would do to one source and property: the batch on a copy of the network, and a query before and after.
#![tactic(auto)]

ghost use Rattle.std.specs.Prelude.{◌≡◌, List, ◌*◌, ◌≤◌, length, replicate};
ghost use Rattle.graph.specs.Limits.{max_vertices, max_batch};
ghost use Rattle.graph.specs.Refusal.{accept, ◌▷◌};
ghost use Rattle.graph.specs.Table.{size};
ghost use Rattle.graph.specs.Code.{told};
ghost use Rattle.network.specs.Network.{faults};
ghost use Rattle.network.specs.Query.{short_words};
ghost use Rattle.network.specs.Batch.{long_batch};
ghost use Rattle.network.specs.Change.{Change};
ghost use Rattle.answers.specs.Preview.{preview_call};
ghost use Rattle.calls.specs.Code.{network};
ghost use Rattle.items.specs.Code.{changes_of, Laid};
ghost use Rattle.effects.specs.Code.{shown_of};
ghost use Rattle.plain_preview.specs.Code.{preview_outcome, AskDone, AskAfterDone};

use graph::{Refusal, rules, words};
use items::lay;

// Number 1 of n and of a batch of so many changes, and number 2 of the lists for the answer: what comes before the query.
fn judge_preview(n: u32, changes: usize, effects: usize, moves: usize) -> Result<(), Refusal>
    ensures { told result ≡ (long_batch changes ▷ size n ▷ short_words n effects moves) }
{
    if changes > graph::MAX_BATCH {
        return Err(Refusal::Size);
    }
    rules::judge_size(n)?;
    calls::judge_outputs(n, effects, moves)
}

// A query without a schedule: its settled words go to a list of zeros, one for each vertex.
fn ask(
    n: u32,
    landmarks: &[u32],
    tails: &[u32],
    heads: &[u32],
    weights: &[u32],
    count: u32,
    forward: &[u32],
    backward: &[u32],
    property: u32,
    source: u32,
    settled: &mut [u32],
) -> Result<(), Refusal>
    requires { (n ≤ max_vertices) × (settled.old ≡ replicate n 0) }
    ensures { AskDone n landmarks.now (network tails.now heads.now weights.now forward.now backward.now count) property source result settled.new }
{
    let mut starts = [0u32; graph::VERTEX_WORDS];
    let size = n as usize;
    let answer = query::query(
        n,
        landmarks,
        tails,
        heads,
        weights,
        count,
        forward,
        backward,
        property,
        source,
        &landmarks[..0],
        &mut starts[..size],
        settled,
    );
    // a `match` and not a `?`: the edit that shows a refusal as though it were none stands in its last arm
    match answer {
        Ok(_) => Ok(()),
        Err(refusal) => Err(refusal),
    }
}

// The batch on a copy of the network, and then such a query there.
fn ask_after(
    n: u32,
    landmarks: &[u32],
    tails: &[u32],
    heads: &[u32],
    weights: &[u32],
    count: u32,
    forward: &[u32],
    backward: &[u32],
    lists: &[u32],
    size: usize,
    property: u32,
    source: u32,
    settled: &mut [u32],
) -> Result<(), Refusal>
    requires lists_len { (length lists.now ≡ 5 * max_batch) × (settled.old ≡ replicate n 0) }
    requires count_value { faults n landmarks.now (network tails.now heads.now weights.now forward.now backward.now count) ≡ accept }
    ensures { (cs : List Change) → Laid size cs lists.now → AskAfterDone n landmarks.now (network tails.now heads.now weights.now forward.now backward.now count) property source cs result settled.new }
{
    let mut tails2 = [0u32; graph::MAX_EDGES];
    let mut heads2 = [0u32; graph::MAX_EDGES];
    let mut weights2 = [0u32; graph::MAX_EDGES];
    let records = count as usize;
    plain_batch::copy_table(
        records,
        tails,
        heads,
        weights,
        &mut tails2,
        &mut heads2,
        &mut weights2,
    );
    let mut forward2 = [0u32; graph::ROW_WORDS];
    let mut backward2 = [0u32; graph::ROW_WORDS];
    let rows = landmarks.len() * property::PROPERTIES * (n as usize);
    words::copy(rows, forward, &mut forward2, 0);
    words::copy(rows, backward, &mut backward2, 0);
    let report = plain_batch::batch_laid(
        n,
        landmarks,
        &mut tails2,
        &mut heads2,
        &mut weights2,
        count,
        &mut forward2,
        &mut backward2,
        lists,
        size,
    )?;
    ask(
        n,
        landmarks,
        &tails2,
        &heads2,
        &weights2,
        report.count,
        &forward2,
        &backward2,
        property,
        source,
        settled,
    )
}

// What a batch of `size` changes would do to each vertex, by the words of a property from `source`: refused, or the two lists tell it; entries past
// `n` stay.
pub fn preview_laid(
    n: u32,
    landmarks: &[u32],
    tails: &[u32],
    heads: &[u32],
    weights: &[u32],
    count: u32,
    forward: &[u32],
    backward: &[u32],
    lists: &[u32],
    size: usize,
    property: u32,
    source: u32,
    effects: &mut [u32],
    moves: &mut [i64],
) -> Result<(), Refusal>
    requires { length lists.now ≡ 5 * max_batch }
    ensures { (cs : List Change) → Laid size cs lists.now → preview_outcome result effects.new moves.new ≡ preview_call n landmarks.now (network tails.now heads.now weights.now forward.now backward.now count) cs property source (shown_of effects.old moves.old) }
{
    judge_preview(n, size, effects.len(), moves.len())?;
    let vertices = n as usize;
    let mut before = [0u32; graph::VERTEX_WORDS];
    ask(
        n,
        landmarks,
        tails,
        heads,
        weights,
        count,
        forward,
        backward,
        property,
        source,
        &mut before[..vertices],
    )?;
    let mut after = [0u32; graph::VERTEX_WORDS];
    ask_after(
        n,
        landmarks,
        tails,
        heads,
        weights,
        count,
        forward,
        backward,
        lists,
        size,
        property,
        source,
        &mut after[..vertices],
    )?;
    effects::show(
        property,
        &before[..vertices],
        &after[..vertices],
        effects,
        moves,
    );
    Ok(())
}

// The same of changes of five words each, for callers that can lend no slice of records.
pub fn preview_words(
    n: u32,
    landmarks: &[u32],
    tails: &[u32],
    heads: &[u32],
    weights: &[u32],
    count: u32,
    forward: &[u32],
    backward: &[u32],
    changes: &[[u32; 5]],
    property: u32,
    source: u32,
    effects: &mut [u32],
    moves: &mut [i64],
) -> Result<(), Refusal>
    ensures { preview_outcome result effects.new moves.new ≡ preview_call n landmarks.now (network tails.now heads.now weights.now forward.now backward.now count) (changes_of changes.now) property source (shown_of effects.old moves.old) }
{
    let m = changes.len();
    let mut lists = [0u32; items::BATCH_WORDS];
    lay::lay(changes, 0, m, &mut lists);
    preview_laid(
        n, landmarks, tails, heads, weights, count, forward, backward, &lists, m, property, source,
        effects, moves,
    )
}
