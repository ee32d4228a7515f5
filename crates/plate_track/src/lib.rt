// The calls for C. Each calls the proved call and spells its reply: the refusal number is returned, 0 where the call is accepted, and
// the reply list gets the words of the answer, or the place of a refusal. A reply list of fewer than 8 words is number 2.
#![tactic(auto)]

ghost use Rattle.std.specs.Prelude.{◌≡◌};
ghost use Rattle.network.specs.Open.{open_call};
ghost use Rattle.network.specs.Query.{query_call};
ghost use Rattle.network.specs.Batch.{batch_call};
ghost use Rattle.network.specs.Settled.{settled_call};
ghost use Rattle.network.specs.Choice.{choice_call};
ghost use Rattle.answers.specs.Routing.{route_call};
ghost use Rattle.answers.specs.Preview.{preview_call};
ghost use Rattle.answers.specs.Digest.{digest_call};
ghost use Rattle.dimacs.specs.Call.{read_call, write_call, sources_call};
ghost use Rattle.graph.specs.Code.{columns, reply_of};
ghost use Rattle.calls.specs.Code.{row_lists, lists, network};
ghost use Rattle.items.specs.Code.{changes_of};
ghost use Rattle.query.specs.Code.{asking, words_of};
ghost use Rattle.routing.specs.Code.{requesting, answer_of};
ghost use Rattle.effects.specs.Code.{shown_of};
ghost use Rattle.spelling.specs.Code.{open_words, tally_words, report_words, check_words, choice_words, size_words, one_word, digest_words};
ghost use Rattle.plate_track.specs.Code.{spelled, alone, lookup_start, version};

use graph::Refusal;
use spelling::REPLY_WORDS;
use spelling::spell::spell;

const VERSION: u32 = 2;

// The version of these calls: no reply list, and nothing to refuse.
#[unsafe(no_mangle)]
pub extern "C" fn plate_track_version() -> u32
    ensures { result ≡ version }
{
    VERSION
}

// Opening.
#[unsafe(no_mangle)]
pub extern "C" fn plate_track_open(
    n: u32,
    landmarks: &[u32],
    tails: &[u32],
    heads: &[u32],
    weights: &[u32],
    count: u32,
    forward: &mut [u32],
    backward: &mut [u32],
    reply: &mut [u64],
) -> u32
    ensures { record { number = result; reply = reply.new; memory = lists tails.now heads.now weights.now forward.new backward.new } ≡ spelled open_words (open_call n landmarks.now (network tails.now heads.now weights.now forward.old backward.old count)) (lists tails.now heads.now weights.now forward.old backward.old) reply.old }
{
    if reply.len() < REPLY_WORDS {
        return 2;
    }
    let r = open::open(
        n, landmarks, tails, heads, weights, count, forward, backward,
    );
    spell(r, reply)
}

// Query.
#[unsafe(no_mangle)]
pub extern "C" fn plate_track_query(
    n: u32,
    landmarks: &[u32],
    tails: &[u32],
    heads: &[u32],
    weights: &[u32],
    count: u32,
    forward: &[u32],
    backward: &[u32],
    property: u32,
    source: u32,
    schedule: &[u32],
    starts: &mut [u32],
    settled: &mut [u32],
    reply: &mut [u64],
) -> u32
    ensures { record { number = result; reply = reply.new; memory = words_of starts.new settled.new } ≡ spelled tally_words (query_call n landmarks.now (network tails.now heads.now weights.now forward.now backward.now count) (asking property source schedule.now) (words_of starts.old settled.old)) (words_of starts.old settled.old) reply.old }
{
    if reply.len() < REPLY_WORDS {
        return 2;
    }
    let r = query::query(
        n, landmarks, tails, heads, weights, count, forward, backward, property, source, schedule,
        starts, settled,
    );
    spell(r, reply)
}

// Batch: a change is five words, kind, tail, head, weight and old weight.
#[unsafe(no_mangle)]
pub extern "C" fn plate_track_batch_v2(
    n: u32,
    landmarks: &[u32],
    tails: &mut [u32],
    heads: &mut [u32],
    weights: &mut [u32],
    count: u32,
    forward: &mut [u32],
    backward: &mut [u32],
    changes: &[[u32; 5]],
    reply: &mut [u64],
) -> u32
    ensures { record { number = result; reply = reply.new; memory = lists tails.new heads.new weights.new forward.new backward.new } ≡ spelled report_words (batch_call n landmarks.now (network tails.old heads.old weights.old forward.old backward.old count) (changes_of changes.now)) (lists tails.old heads.old weights.old forward.old backward.old) reply.old }
{
    if reply.len() < REPLY_WORDS {
        return 2;
    }
    let r = plain_batch::batch_part(
        n,
        landmarks,
        tails,
        heads,
        weights,
        count,
        forward,
        backward,
        changes,
        0,
        changes.len(),
    );
    spell(r, reply)
}

// Settled check.
#[unsafe(no_mangle)]
pub extern "C" fn plate_track_settled(
    n: u32,
    landmarks: &[u32],
    tails: &[u32],
    heads: &[u32],
    weights: &[u32],
    count: u32,
    forward: &[u32],
    backward: &[u32],
    reply: &mut [u64],
) -> u32
    ensures { record { number = result; reply = reply.new; memory = tt } ≡ spelled check_words (alone (settled_call n landmarks.now (network tails.now heads.now weights.now forward.now backward.now count))) tt reply.old }
{
    if reply.len() < REPLY_WORDS {
        return 2;
    }
    let r = settled_check::find_relaxable(
        n, landmarks, tails, heads, weights, count, forward, backward,
    );
    spell(r, reply)
}

// Landmark choice.
#[unsafe(no_mangle)]
pub extern "C" fn plate_track_choose(
    n: u32,
    tails: &[u32],
    heads: &[u32],
    weights: &[u32],
    count: u32,
    k: u32,
    reply: &mut [u64],
) -> u32
    ensures { record { number = result; reply = reply.new; memory = tt } ≡ spelled choice_words (alone (choice_call n (columns tails.now heads.now weights.now) count k)) tt reply.old }
{
    if reply.len() < REPLY_WORDS {
        return 2;
    }
    let r = choice::choose_landmarks(n, tails, heads, weights, count, k);
    spell(r, reply)
}

// Row look-up.
#[unsafe(no_mangle)]
pub extern "C" fn plate_track_row(
    n: u32,
    landmarks: &[u32],
    forward: &[u32],
    backward: &[u32],
    side: u32,
    landmark: u32,
    property: u32,
    reply: &mut [u64],
) -> u32
    ensures { record { number = result; reply = reply.new; memory = tt } ≡ spelled one_word (alone (lookup_start n landmarks.now (row_lists forward.now backward.now) side landmark property)) tt reply.old }
{
    if reply.len() < REPLY_WORDS {
        return 2;
    }
    let r = row_start(n, landmarks, forward, backward, side, landmark, property);
    spell(r, reply)
}

// Where the row that a look-up shows starts in its list.
fn row_start(
    n: u32,
    landmarks: &[u32],
    forward: &[u32],
    backward: &[u32],
    side: u32,
    landmark: u32,
    property: u32,
) -> Result<usize, Refusal>
    ensures { reply_of (λ i. i) result ≡ lookup_start n landmarks.now (row_lists forward.now backward.now) side landmark property }
{
    lookup::row_number(n, landmarks, forward, backward, side, landmark, property)?;
    let i = lookup::index_of(landmark, landmarks);
    Ok(calls::row_start(property, n as usize, i))
}

// Network text into table lists.
#[unsafe(no_mangle)]
pub extern "C" fn plate_track_read(
    text: &[u8],
    tails: &mut [u32],
    heads: &mut [u32],
    weights: &mut [u32],
    reply: &mut [u64],
) -> u32
    ensures { record { number = result; reply = reply.new; memory = columns tails.new heads.new weights.new } ≡ spelled size_words (read_call text.now (columns tails.old heads.old weights.old)) (columns tails.old heads.old weights.old) reply.old }
{
    if reply.len() < REPLY_WORDS {
        return 2;
    }
    let r = reader::network_text::read_network(text, tails, heads, weights);
    spell(r, reply)
}

// A network's text.
#[unsafe(no_mangle)]
pub extern "C" fn plate_track_write(
    n: u32,
    tails: &[u32],
    heads: &[u32],
    weights: &[u32],
    count: u32,
    text: &mut [u8],
    reply: &mut [u64],
) -> u32
    ensures { record { number = result; reply = reply.new; memory = text.new } ≡ spelled one_word (write_call n (columns tails.now heads.now weights.now) count text.old) text.old reply.old }
{
    if reply.len() < REPLY_WORDS {
        return 2;
    }
    let r = writer::network_text::write_network(n, tails, heads, weights, count, text);
    spell(r, reply)
}

// A source file into a list of vertices.
#[unsafe(no_mangle)]
pub extern "C" fn plate_track_read_sources(
    text: &[u8],
    n: u32,
    sources: &mut [u32],
    reply: &mut [u64],
) -> u32
    ensures { record { number = result; reply = reply.new; memory = sources.new } ≡ spelled one_word (sources_call n text.now sources.old) sources.old reply.old }
{
    if reply.len() < REPLY_WORDS {
        return 2;
    }
    let r = sources::read_sources(n, text, sources);
    spell(r, reply)
}

// Route.
#[unsafe(no_mangle)]
pub extern "C" fn plate_track_route_v2(
    n: u32,
    tails: &[u32],
    heads: &[u32],
    weights: &[u32],
    count: u32,
    property: u32,
    source: u32,
    target: u32,
    vertices: &mut [u32],
    marks: &mut [u32],
    figures: &mut [u32],
    reply: &mut [u64],
) -> u32
    ensures { record { number = result; reply = reply.new; memory = answer_of vertices.new marks.new figures.new } ≡ spelled one_word (route_call n (columns tails.now heads.now weights.now) count (requesting property source target) (answer_of vertices.old marks.old figures.old)) (answer_of vertices.old marks.old figures.old) reply.old }
{
    if reply.len() < REPLY_WORDS {
        return 2;
    }
    let r = routing::route(
        n, tails, heads, weights, count, property, source, target, vertices, marks, figures,
    );
    spell(r, reply)
}

// Preview: what a batch would do.
#[unsafe(no_mangle)]
pub extern "C" fn plate_track_preview_v2(
    n: u32,
    landmarks: &[u32],
    tails: &[u32],
    heads: &[u32],
    weights: &[u32],
    count: u32,
    forward: &[u32],
    backward: &[u32],
    changes: &[[u32; 5]],
    property: u32,
    source: u32,
    effects: &mut [u32],
    moves: &mut [i64],
    reply: &mut [u64],
) -> u32
    ensures { record { number = result; reply = reply.new; memory = shown_of effects.new moves.new } ≡ spelled open_words (preview_call n landmarks.now (network tails.now heads.now weights.now forward.now backward.now count) (changes_of changes.now) property source (shown_of effects.old moves.old)) (shown_of effects.old moves.old) reply.old }
{
    if reply.len() < REPLY_WORDS {
        return 2;
    }
    let r = plain_preview::preview_words(
        n, landmarks, tails, heads, weights, count, forward, backward, changes, property, source,
        effects, moves,
    );
    spell(r, reply)
}

// Digest of a preview.
#[unsafe(no_mangle)]
pub extern "C" fn plate_track_digest(
    n: u32,
    property: u32,
    effects: &[u32],
    moves: &[i64],
    reply: &mut [u64],
) -> u32
    ensures { record { number = result; reply = reply.new; memory = tt } ≡ spelled digest_words (alone (digest_call n property (shown_of effects.now moves.now))) tt reply.old }
{
    if reply.len() < REPLY_WORDS {
        return 2;
    }
    let r = digest::digest_preview(n, property, effects, moves);
    spell(r, reply)
}
