// Two files read and their network opened: all that the output is made from.
ghost use Rattle.std.specs.Prelude.{◌≡◌, List, ◌≤◌, length};
ghost use Rattle.graph.specs.Limits.{max_vertices, max_landmarks};
ghost use Rattle.graph.specs.Edge.{Edge};
ghost use Rattle.graph.specs.Refusal.{accept};
ghost use Rattle.graph.specs.Table.{size};
ghost use Rattle.dimacs.specs.Sources.{max_sources};
ghost use Rattle.listing.specs.Code.{TableLists, RowLists, Loaded, Ready, GraphRead, SourcesRead, Bounded, Shown};

use super::parts::Prepared;
use choice::Choice;
use graph::{Refusal, words};
use reader::network_text::Size;

// The network of a table opened: the landmarks of choice, four or n if fewer, and the rows in front of two lists.
pub fn open_network(
    n: u32,
    tails: &[u32],
    heads: &[u32],
    weights: &[u32],
    count: u32,
    forward: &mut [u32],
    backward: &mut [u32],
) -> Choice
    requires { (n ≤ max_vertices) × RowLists forward.old backward.old }
    ensures count_le_max_landmarks { (result.count ≤ max_landmarks) × (length result.vertices ≡ max_landmarks) }
    ensures ready { (es : List Edge) → Loaded n es tails.now heads.now weights.now count → Ready n es tails.now heads.now weights.now count result.count result.vertices forward.new backward.new }
{
    let none = Choice {
        count: 0,
        vertices: [0u32; graph::MAX_LANDMARKS],
    };
    let choice = choice::choose_landmarks(
        n,
        tails,
        heads,
        weights,
        count,
        graph::MAX_LANDMARKS as u32,
    ).unwrap_or(none);
    let held = choice.count;
    let vertices = choice.vertices;
    let k = held * property::PROPERTIES * (n as usize);
    words::fill(forward, 0);
    words::fill(backward, 0);
    let _ = open::open(
        n,
        &vertices[..held],
        tails,
        heads,
        weights,
        count,
        &mut forward[..k],
        &mut backward[..k],
    );
    choice
}

// Network text of at most `MAX_FILE` bytes into table lists, with zeros past its edges.
fn read_graph(
    gr: &[u8],
    tails: &mut [u32],
    heads: &mut [u32],
    weights: &mut [u32],
) -> Result<Size, Refusal>
    requires { TableLists tails.old heads.old weights.old }
    ensures { GraphRead gr.now result tails.new heads.new weights.new }
{
    if gr.len() > super::MAX_FILE {
        return Err(Refusal::Short);
    }
    words::fill(tails, 0);
    words::fill(heads, 0);
    words::fill(weights, 0);
    reader::network_text::read_network(gr, tails, heads, weights)
}

// A source file of at most `MAX_FILE` bytes.
fn read_list(n: u32, ss: &[u8], list: &mut [u32]) -> Result<u32, Refusal>
    requires { (size n ≡ accept) × (max_sources ≤ length list.old) }
    ensures { SourcesRead n ss.now result list.new }
{
    if ss.len() > super::MAX_FILE {
        return Err(Refusal::Short);
    }
    sources::read_sources(n, ss, list)
}

// Two files, deck.gr first: a refusal, or the opened network and its sources in the lent lists.
pub fn prepare(
    gr: &[u8],
    ss: &[u8],
    tails: &mut [u32],
    heads: &mut [u32],
    weights: &mut [u32],
    list: &mut [u32],
    forward: &mut [u32],
    backward: &mut [u32],
) -> Result<Prepared, Refusal>
    requires table_lists { TableLists tails.old heads.old weights.old }
    requires list_len { (length list.old ≡ max_sources) × RowLists forward.old backward.old }
    ensures bounded { Bounded result list.new forward.new backward.new }
    ensures shown { Shown gr.now ss.now result tails.new heads.new weights.new list.new forward.new backward.new }
{
    let size = read_graph(gr, tails, heads, weights)?;
    let sources = read_list(size.n, ss, list)?;
    let choice = open_network(size.n, tails, heads, weights, size.count, forward, backward);
    Ok(Prepared {
        n: size.n,
        count: size.count,
        choice,
        sources: sources as usize,
    })
}
