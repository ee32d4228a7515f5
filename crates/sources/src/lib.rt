// Source files, read line by line into a scratch list; the lent list is written once the whole file is good.
#![tactic(auto)]

ghost use Rattle.std.specs.Prelude.{◌≡◌, List, [], ℕ, ◌+◌, ◌<◌, ◌≤◌, ◌^◌, length, drop};
ghost use Rattle.std.proofs.Math.Option.{bind};
ghost use Rattle.graph.specs.Limits.{max_vertices};
ghost use Rattle.dimacs.specs.Read.{fields, step, ended};
ghost use Rattle.dimacs.specs.Sources.{max_sources, header, source, header_from, source_from, item_in, act, complete, read_sources};
ghost use Rattle.dimacs.specs.Call.{sources_call};
ghost use Rattle.sources.specs.Capped.{cap_sources};
ghost use Rattle.sources.specs.Code.{item_said, state_of, step_of, read_of, Held, Keeps, Whole, sources_outcome};

use graph::{Refusal, rules, words};
use scanner::numbers;

// COUNT is at most this, and the lent list has at least as many words: `max_sources` of the definitions. It is a limit of the format, apart
// from the number of vertices.
pub const MAX_SOURCES: usize = 256;

// What a line says that is no comment. Vertices count from 0.
#[derive(Clone, Copy, Drop)]
pub enum Said {
    Header(u32),
    Source(u32),
}

// Where the reader stands: before the p line, or after it with COUNT and how many sources there are so far.
#[derive(Clone, Copy, Drop)]
pub enum State {
    Start,
    Within(u32, usize),
}

// The number of a line after its `p aux sp ss`.
fn read_header(line: &[u8]) -> Option<Said>
    ensures { item_said result ≡ cap_sources (bind (fields 1 (drop 11 line.now)) header_from) }
{
    let [k] = numbers::read_fields::<1>(line, 11)?;
    Some(Said::Header(k))
}

// The number of a line after its `s`.
fn read_source(line: &[u8]) -> Option<Said>
    ensures { item_said result ≡ cap_sources (bind (fields 1 (drop 1 line.now)) source_from) }
{
    let [v] = numbers::read_fields::<1>(line, 1)?;
    if v == 0 {
        return None;
    }
    Some(Said::Source(v - 1))
}

// What a line says, if it is a p line or an s line.
fn read_item(line: &[u8]) -> Option<Said>
    ensures { item_said result ≡ cap_sources (item_in line.now) }
{
    if scanner::begins(line, b"p aux sp ss") {
        return read_header(line);
    }
    if scanner::begins(line, b"s") {
        return read_source(line);
    }
    None
}

// The state after a p line, if some good file goes on with it. No list is touched.
fn take_header(state: State, k: u32) -> Option<State>
    ensures by_index { (n : ℕ) (xs : List ℕ) → step_of xs result ≡ act n (state_of xs state) (header k) }
    ensures by_index_2 { (xs : List ℕ) → max_sources ≤ length xs → Keeps result xs }
{
    let State::Start = state else {
        return None;
    };
    if MAX_SOURCES < k as usize {
        return None;
    }
    Some(State::Within(k, 0))
}

// The state after an s line, if some good file goes on with it: its vertex goes behind those so far.
fn take_source(n: u32, state: State, v: u32, list: &mut [u32]) -> Option<State>
    requires { Held state list.old }
    ensures result_after { step_of list.new result ≡ act n (state_of list.old state) (source v) }
    ensures keeps { Keeps result list.new }
{
    let State::Within(k, held) = state else {
        return None;
    };
    if k as usize <= held {
        return None;
    }
    if n <= v {
        return None;
    }
    list[held] = v;
    Some(State::Within(k, held + 1))
}

// The state after what a line says.
fn take_item(n: u32, state: State, said: Option<Said>, list: &mut [u32]) -> Option<State>
    requires { Held state list.old }
    ensures result_after { step_of list.new result ≡ bind (item_said said) (act n (state_of list.old state)) }
    ensures keeps { Keeps result list.new }
{
    match said? {
        Said::Header(k) => take_header(state, k),
        Said::Source(v) => take_source(n, state, v, list),
    }
}

// The state after a line, without its line feed.
fn take_line(n: u32, state: State, line: &[u8], list: &mut [u32]) -> Option<State>
    requires { (n ≤ max_vertices) × Held state list.old }
    ensures result_after { step_of list.new result ≡ step item_in (act n) complete (state_of list.old state) line.now }
    ensures keeps { Keeps result list.new }
{
    if numbers::holds(line, 0, 99) {
        if scanner::is_comment(line) {
            return Some(state);
        }
        return None;
    }
    take_item(n, state, read_item(line), list)
}

// The end of a file after `k` complete lines, with nothing after the last line feed.
fn end_text(state: State, k: usize) -> Result<u32, Refusal>
    requires { k + 1 < 2 ^ 64 }
    ensures by_index { (n : ℕ) (xs : List ℕ) → Held state xs → read_of xs result ≡ ended item_in (act n) complete [] k (state_of xs state) }
    ensures by_index_2 { (xs : List ℕ) → Held state xs → Whole result xs }
{
    let State::Within(total, held) = state else {
        return Err(Refusal::Text(k + 1));
    };
    if held == total as usize {
        return Ok(total);
    }
    Err(Refusal::Text(k + 1))
}

// A whole file, line by line: the sources go to the list, which is scratch.
fn read_text(n: u32, text: &[u8], list: &mut [u32]) -> Result<u32, Refusal>
    requires { (n ≤ max_vertices) × (max_sources ≤ length list.old) }
    ensures result_after { read_of list.new result ≡ read_sources n text.now }
    ensures whole { Whole result list.new }
{
    let mut state = State::Start;
    let mut at = 0;
    let mut k = 0;
    // kept as a `while`: where the next line begins is known once this one is read
    while at < text.len() {
        let Some(end) = scanner::line_feed(text, at) else {
            return Err(Refusal::Text(k + 1));
        };
        let Some(next) = take_line(n, state, &text[at..end], list) else {
            return Err(Refusal::Text(k + 1));
        };
        state = next;
        at = end + 1;
        k += 1;
    }
    end_text(state, k)
}

// The same call with a scratch list.
fn read_in(n: u32, text: &[u8], sources: &mut [u32], list: &mut [u32]) -> Result<u32, Refusal>
    requires { max_sources ≤ length list.old }
    ensures { sources_outcome result sources.new ≡ sources_call n text.now sources.old }
{
    rules::judge_size(n)?;
    if sources.len() < MAX_SOURCES {
        return Err(Refusal::Short);
    }
    let count = read_text(n, text, list)?;
    words::copy(count as usize, list, sources, 0);
    Ok(count)
}

// A source file of a network with `n` vertices into a list of at least `MAX_SOURCES` words: numbers 1, 2 and 14, or the count; vertices from 0.
pub fn read_sources(n: u32, text: &[u8], sources: &mut [u32]) -> Result<u32, Refusal>
    ensures { sources_outcome result sources.new ≡ sources_call n text.now sources.old }
{
    let mut list = [0u32; MAX_SOURCES];
    read_in(n, text, sources, &mut list)
}
