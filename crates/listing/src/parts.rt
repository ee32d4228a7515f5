// The output, piece by piece: a refusal, or the header and the lines of each source.
ghost use Rattle.std.specs.Prelude.{◌≡◌, List, [], ℕ, ◌+◌, ◌<◌, ◌≤◌, length, get_or, Ok};
ghost use Rattle.dimacs.specs.Sources.{max_sources};
ghost use Rattle.writer.specs.Code.{Wrote};
ghost use Rattle.graph.specs.Refusal.{accept};
ghost use Rattle.listing.specs.Listing.{files_verdict};
ghost use Rattle.listing.specs.Code.{parts, sources_in, Bounded, Printable, Shown};

use super::lines;
use choice::Choice;
use graph::Refusal;

// Two good files that were read: the numbers of the network and of its sources.
#[derive(Clone, Copy, Drop)]
pub struct Prepared {
    pub n: u32,
    pub count: u32,
    pub choice: Choice,
    pub sources: usize,
}

// How many pieces there are.
pub fn part_count(prepared: Result<Prepared, Refusal>) -> usize
    requires { sources_in prepared ≤ max_sources }
    ensures upper_bound { result ≤ sources_in prepared + 1 }
    ensures value { (gr ss ts hs ws xs f b : List ℕ) → Bounded prepared xs f b → Shown gr ss prepared ts hs ws xs f b → result ≡ length (parts gr ss) }
{
    match prepared {
        Ok(good) => 1 + good.sources,
        Err(_) => 1,
    }
}

// The lines of source `i`.
fn put_lines(
    i: usize,
    prepared: Prepared,
    tails: &[u32],
    heads: &[u32],
    weights: &[u32],
    sources: &[u32],
    forward: &[u32],
    backward: &[u32],
    out: &mut [u8],
) -> usize
    requires { (i < prepared.sources) × Printable (Ok prepared) sources.now forward.now backward.now out.old }
    ensures by_index { (gr ss : List ℕ) → Shown gr ss (Ok prepared) tails.now heads.now weights.now sources.now forward.now backward.now → files_verdict gr ss ≡ accept → Wrote (get_or (parts gr ss) (i + 1) []) 0 out.old result out.new }
    ensures upper_bound { result ≤ length out.new }
{
    let n = prepared.n;
    let choice = prepared.choice;
    let held = choice.count;
    let vertices = choice.vertices;
    let k = held * property::PROPERTIES * (n as usize);
    lines::put_source(
        n,
        &vertices[..held],
        tails,
        heads,
        weights,
        prepared.count,
        &forward[..k],
        &backward[..k],
        sources[i],
        out,
    )
}

// Piece `i`.
pub fn put_part(
    i: usize,
    prepared: Result<Prepared, Refusal>,
    tails: &[u32],
    heads: &[u32],
    weights: &[u32],
    sources: &[u32],
    forward: &[u32],
    backward: &[u32],
    out: &mut [u8],
) -> usize
    requires { (i ≤ sources_in prepared) × Printable prepared sources.now forward.now backward.now out.old }
    ensures by_index { (gr ss : List ℕ) → Shown gr ss prepared tails.now heads.now weights.now sources.now forward.now backward.now → i < length (parts gr ss) → Wrote (get_or (parts gr ss) i []) 0 out.old result out.new }
    ensures upper_bound { result ≤ length out.new }
{
    let good = match prepared {
        Ok(good) => good,
        Err(refusal) => return lines::put_refused(refusal.number(), refusal.place(), out),
    };
    if i == 0 {
        return lines::put_header(out);
    }
    put_lines(
        i - 1,
        good,
        tails,
        heads,
        weights,
        sources,
        forward,
        backward,
        out,
    )
}
