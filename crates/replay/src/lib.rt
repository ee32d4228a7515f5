// A whole history in one call: an opening, then batch after batch, each with the count that the one before left.
#![tactic(auto)]

ghost use Rattle.std.specs.Prelude.{◌≡◌, Ok};
ghost use Rattle.calls.specs.Code.{network};
ghost use Rattle.items.specs.Code.{changes_of};
ghost use Rattle.replay.specs.Replay.{batches, replay_call};
ghost use Rattle.replay.specs.Code.{replay_outcome, carried, AtExit};

use graph::Refusal;

// What a replay came to: the present count, and how many batches were accepted.
#[derive(Drop)]
pub struct Summary {
    pub count: u32,
    pub accepted_batches: usize,
}

// The batches of an opened network, one after the other.
fn apply_parts(
    n: u32,
    landmarks: &[u32],
    tails: &mut [u32],
    heads: &mut [u32],
    weights: &mut [u32],
    count: u32,
    forward: &mut [u32],
    backward: &mut [u32],
    changes: &[[u32; 5]],
    ends: &[u32],
) -> Summary
    ensures { replay_outcome (Ok result) tails.new heads.new weights.new forward.new backward.new ≡ carried n landmarks.now (network tails.old heads.old weights.old forward.old backward.old count) 0 (batches ends.now (changes_of changes.now)) }
{
    let mut present = count;
    let mut accepted = 0;
    let mut from = 0;
    for &end in ends {
        let to = end as usize;
        let applied = plain_batch::batch_part(
            n, landmarks, tails, heads, weights, present, forward, backward, changes, from, to,
        );
        if let Ok(report) = applied {
            present = report.count;
            accepted += 1;
        }
        from = to;
    }
    Summary {
        count: present,
        accepted_batches: accepted,
    }
}

// An opening, then the batches whose ends are given, one after the other; a refused batch changes nothing, and the next goes on from there.
pub fn replay(
    n: u32,
    landmarks: &[u32],
    tails: &mut [u32],
    heads: &mut [u32],
    weights: &mut [u32],
    count: u32,
    forward: &mut [u32],
    backward: &mut [u32],
    changes: &[[u32; 5]],
    ends: &[u32],
) -> Result<Summary, Refusal>
    ensures backward_after { replay_outcome result tails.new heads.new weights.new forward.new backward.new ≡ replay_call n landmarks.now (network tails.old heads.old weights.old forward.old backward.old count) (batches ends.now (changes_of changes.now)) }
    ensures at_exit { AtExit n landmarks.now (network tails.old heads.old weights.old forward.old backward.old count) (batches ends.now (changes_of changes.now)) result tails.new heads.new weights.new forward.new backward.new }
{
    let opened = open::open(
        n, landmarks, tails, heads, weights, count, forward, backward,
    );
    // a `match` and not a `?`: the edit by which the opening's number is lost stands in its first arm
    match opened {
        Err(refusal) => Err(refusal),
        Ok(()) => Ok(apply_parts(
            n, landmarks, tails, heads, weights, count, forward, backward, changes, ends,
        )),
    }
}
