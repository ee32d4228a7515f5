// A preview of a batch as it is lent: a slice of change records, copied as a batch's are.
#![tactic(auto)]

ghost use Rattle.std.specs.Prelude.{◌≡◌, map};
ghost use Rattle.answers.specs.Preview.{preview_call};
ghost use Rattle.calls.specs.Code.{network};
ghost use Rattle.batch.specs.Code.{recorded};
ghost use Rattle.effects.specs.Code.{shown_of};
ghost use Rattle.plain_preview.specs.Code.{preview_outcome};

use batch::Change;
use graph::Refusal;

// What a batch would do to each vertex, by the words of a property from `source`. The network is lent to read.
pub fn preview(
    n: u32,
    landmarks: &[u32],
    tails: &[u32],
    heads: &[u32],
    weights: &[u32],
    count: u32,
    forward: &[u32],
    backward: &[u32],
    changes: &[Change],
    property: u32,
    source: u32,
    effects: &mut [u32],
    moves: &mut [i64],
) -> Result<(), Refusal>
    ensures { preview_outcome result effects.new moves.new ≡ preview_call n landmarks.now (network tails.now heads.now weights.now forward.now backward.now count) (map recorded changes.now) property source (shown_of effects.old moves.old) }
{
    let mut lists = [0u32; items::BATCH_WORDS];
    batch::copy_changes(changes, changes.len().min(graph::MAX_BATCH), &mut lists);
    plain_preview::preview_laid(
        n,
        landmarks,
        tails,
        heads,
        weights,
        count,
        forward,
        backward,
        &lists,
        changes.len(),
        property,
        source,
        effects,
        moves,
    )
}
