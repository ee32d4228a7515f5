// A query: its refusals, its start words, its run.
#![tactic(auto)]

ghost use Rattle.std.specs.Prelude.{◌≡◌, false, List, ℕ, ◌+◌, ◌<◌, ◌≤◌, length, get_or};
ghost use Rattle.property.specs.Property.{property};
ghost use Rattle.graph.specs.Limits.{max_vertices};
ghost use Rattle.graph.specs.Refusal.{◌▷◌};
ghost use Rattle.graph.specs.Edge.{Edge};
ghost use Rattle.graph.specs.Table.{size};
ghost use Rattle.graph.specs.Code.{told};
ghost use Rattle.graph.specs.Index.{FitIn, OwnIn};
ghost use Rattle.run.specs.Code.{Scheduled};
ghost use Rattle.run.specs.Start as start;
ghost use Rattle.network.specs.Query.{scheduled, long_schedule, requested, query_faults, query_call};
ghost use Rattle.calls.specs.Code.{network};
ghost use Rattle.query.specs.Code.{asking, words_of, as_outcome, run_from, Ended, known_by, Rowed};

use graph::{Refusal, ends, rules};
use run::Tally;

// Number 6 at the first entry of a schedule that is no vertex.
fn judge_schedule(n: u32, schedule: &[u32]) -> Result<(), Refusal>
    ensures { told result ≡ scheduled n 0 schedule.now }
{
    for (i, &vertex) in schedule.iter().enumerate() {
        if vertex >= n {
            return Err(Refusal::Vertex(i));
        }
    }
    Ok(())
}

// Number 1: n is 0 or over `MAX_VERTICES`, or the schedule has over `MAX_SCHEDULE` entries.
fn judge_sizes(n: u32, entries: usize) -> Result<(), Refusal>
    ensures { told result ≡ (size n ▷ long_schedule entries) }
{
    rules::judge_size(n)?;
    rules::refuse_if(entries > graph::MAX_SCHEDULE, Refusal::Size)
}

// Numbers 5 and 6: no property, a source or an entry of the schedule that is no vertex.
fn judge_request(n: u32, property: u32, source: u32, schedule: &[u32]) -> Result<(), Refusal>
    ensures { told result ≡ requested n (asking property source schedule.now) }
{
    if !calls::is_property(property) {
        return Err(Refusal::Property);
    }
    if source >= n {
        return Err(Refusal::Vertex(0));
    }
    judge_schedule(n, schedule)
}

// Every refusal that comes before the run.
fn judge_query(
    n: u32,
    landmarks: &[u32],
    tails: &[u32],
    heads: &[u32],
    weights: &[u32],
    count: u32,
    forward: &[u32],
    backward: &[u32],
    property: u32,
    source: u32,
    schedule: &[u32],
    starts: usize,
    settled: usize,
) -> Result<(), Refusal>
    ensures { told result ≡ query_faults n landmarks.now (network tails.now heads.now weights.now forward.now backward.now count) (asking property source schedule.now) starts settled }
{
    judge_sizes(n, schedule.len())?;
    calls::judge_lists(n, landmarks, tails, heads, weights, forward, backward)?;
    calls::judge_outputs(n, starts, settled)?;
    calls::judge_network(n, landmarks, tails, heads, weights, count)?;
    judge_request(n, property, source, schedule)
}

// The better of two words.
fn finer(p: u32, a: u32, b: u32) -> u32
    ensures { result ≡ start.finer (property p) a b }
{
    if property::better(p, a, b) { a } else { b }
}

// A landmark's bounds better the words of `out`: `b`, the backward word of the source, joined with its forward row, which starts at `at`.
fn join_row_of(p: u32, b: u32, at: usize, forward: &[u32], out: &mut [u32])
    requires { at + length out.old ≤ length forward.now }
    ensures { (t : ℕ) → t < length out.old → get_or out.new t 0 ≡ start.finer (property p) ((property p).join b (get_or forward.now (at + t) 0)) (get_or out.old t 0) }
{
    for (t, word) in out.iter_mut().enumerate() {
        *word = finer(p, property::join(p, b, forward[at + t]), *word);
    }
}

// The same, with the number of the property literal in each arm, so that its tests are made once and not at each vertex.
fn join_row(p: u32, b: u32, at: usize, forward: &[u32], out: &mut [u32])
    requires { at + length out.old ≤ length forward.now }
    ensures { (t : ℕ) → t < length out.old → get_or out.new t 0 ≡ start.finer (property p) ((property p).join b (get_or forward.now (at + t) 0)) (get_or out.old t 0) }
{
    match p {
        1 => join_row_of(1, b, at, forward, out),
        2 => join_row_of(2, b, at, forward, out),
        3 => join_row_of(3, b, at, forward, out),
        4 => join_row_of(4, b, at, forward, out),
        _ => join_row_of(5, b, at, forward, out),
    }
}

// The start words of all vertices: the best bound over the landmarks, and its value at the source. It goes from the last landmark down
// because the definition folds from the right.
fn start_words(
    p: u32,
    n: usize,
    landmarks: &[u32],
    source: usize,
    forward: &[u32],
    backward: &[u32],
    out: &mut [u32],
)
    requires { (length out.old ≡ n) × Rowed n landmarks.now p source forward.now backward.now }
    ensures { out.new ≡ (start.asked (property p) (known_by n landmarks.now p source forward.now backward.now) n source).words }
{
    graph::words::fill(out, property::none(p));
    for i in (0..landmarks.len()).rev() {
        let at = calls::row_start(p, n, i);
        join_row(p, backward[at + source], at, forward, out);
    }
    out[source] = property::start(p);
}

// The run of a query from its start words, over the lists of the table: they go to the list `settled`, and the run goes on there. Nothing waits
// after n rounds.
fn run_query(
    p: u32,
    n: usize,
    source: usize,
    firsts: &[u32],
    heads: &[u32],
    weights: &[u32],
    schedule: &[u32],
    start: &[u32],
    settled: &mut [u32],
) -> Tally
    requires fit_in { FitIn false n firsts.now heads.now weights.now × Scheduled n schedule.now × (source < n) × (n ≤ max_vertices) }
    requires start_len { (length start.now ≡ n) × (n ≤ length settled.old) }
    ensures { (es : List Edge) → OwnIn false n firsts.now heads.now weights.now es → Ended (run_from (property p) es n source schedule.now start.now) result settled.old settled.new }
{
    graph::words::copy(n, start, settled, 0);
    let mut waiting = frontier::empty();
    run::start_at(n, source, &mut waiting);
    run::run_counted(
        p,
        n,
        firsts,
        heads,
        weights,
        schedule,
        &mut settled[..n],
        &mut waiting,
    )
}

// A query: refused, or answered by its tally, with start words and settled words in the lent lists; words past `n` stay.
pub fn query(
    n: u32,
    landmarks: &[u32],
    tails: &[u32],
    heads: &[u32],
    weights: &[u32],
    count: u32,
    forward: &[u32],
    backward: &[u32],
    property: u32,
    source: u32,
    schedule: &[u32],
    starts: &mut [u32],
    settled: &mut [u32],
) -> Result<Tally, Refusal>
    ensures { as_outcome result starts.new settled.new ≡ query_call n landmarks.now (network tails.now heads.now weights.now forward.now backward.now count) (asking property source schedule.now) (words_of starts.old settled.old) }
{
    judge_query(
        n,
        landmarks,
        tails,
        heads,
        weights,
        count,
        forward,
        backward,
        property,
        source,
        schedule,
        starts.len(),
        settled.len(),
    )?;
    let size = n as usize;
    let mut start = [0u32; graph::VERTEX_WORDS];
    start_words(
        property,
        size,
        landmarks,
        source as usize,
        forward,
        backward,
        &mut start[..size],
    );
    graph::words::copy(size, &start, starts, 0);
    let mut firsts = [0u32; graph::PLACE_WORDS];
    ends::firsts(size, count as usize, tails, &mut firsts);
    let tally = run_query(
        property,
        size,
        source as usize,
        &firsts,
        heads,
        weights,
        schedule,
        &start[..size],
        settled,
    );
    Ok(tally)
}
