// Prints the five values from every source of deck.ss to every vertex of deck.gr. Both files are read in the folder that it is started in.
#![tactic(auto)]

ghost use Rattle.std.specs.Prelude.{◌≡◌, ◌+◌, ◌*◌, ◌≤◌, length, take};
ghost use Rattle.graph.specs.Limits.{max_vertices, max_edges};
ghost use Rattle.dimacs.specs.Sources.{max_sources};
ghost use Rattle.listing.specs.Listing.{max_file};
ghost use Rattle.listing.specs.Code.{max_line, row_words, Printable};

use graph::Refusal;
use listing::parts::Prepared;
use listing::{parts, prepare};
use std::fs::File;
use std::io::{self, Read, Write};

// Room for one byte more than a file may have: nothing past it matters.
const FILE_BYTES: usize = listing::MAX_FILE + 1;

// A file's buffer. Only the length is told, as in the lists below.
fn file_buffer() -> [u8; FILE_BYTES]
    ensures { max_file + 1 ≡ length result }
{
    [0; FILE_BYTES]
}

// A list of the table.
fn table_list() -> [u32; graph::MAX_EDGES]
    ensures { max_edges ≡ length result }
{
    [0; graph::MAX_EDGES]
}

// A list of rows: of each landmark, property and vertex.
fn row_list() -> [u32; graph::ROW_WORDS]
    ensures { row_words ≡ length result }
{
    [0; graph::ROW_WORDS]
}

// Room for the lines of a source.
fn line_buffer() -> [u8; listing::SOURCE_BYTES]
    ensures { max_line * max_vertices ≡ length result }
{
    [0; listing::SOURCE_BYTES]
}

// A file's bytes in front of `text`, as far as they can be read; none where it can't be opened.
fn read_file(rt: &HostRuntime, name: &str, text: &mut [u8]) -> usize
    ensures { (result ≤ length text.new) × (result ≡ length (take result text.new)) }
{
    let mut n = 0;
    let Ok(mut file) = File::open(rt, name) else {
        return 0;
    };
    while n < text.len() {
        match file.read(&mut text[n..]) {
            Ok(0) | Err(_) => return n,
            Ok(more) => n += more,
        }
    }
    n
}

// Writes the pieces of the output, one after the other, until one can't be written.
fn print_parts(
    rt: &HostRuntime,
    prepared: Result<Prepared, Refusal>,
    tails: &[u32],
    heads: &[u32],
    weights: &[u32],
    list: &[u32],
    forward: &[u32],
    backward: &[u32],
    out: &mut [u8],
)
    requires { (length list.now ≡ max_sources) × Printable prepared list.now forward.now backward.now out.old }
{
    let count = parts::part_count(prepared);
    for i in 0..count {
        let n = parts::put_part(
            i, prepared, tails, heads, weights, list, forward, backward, out,
        );
        if io::writer(rt).write_all(&out[..n]).is_err() {
            return;
        }
    }
}

fn main(rt: HostRuntime) {
    let mut gr = file_buffer();
    let mut ss = file_buffer();
    let g = read_file(&rt, "deck.gr", &mut gr);
    let s = read_file(&rt, "deck.ss", &mut ss);
    let mut tails = table_list();
    let mut heads = table_list();
    let mut weights = table_list();
    let mut list = [0u32; sources::MAX_SOURCES];
    let mut forward = row_list();
    let mut backward = row_list();
    let prepared = prepare::prepare(
        &gr[..g],
        &ss[..s],
        &mut tails,
        &mut heads,
        &mut weights,
        &mut list,
        &mut forward,
        &mut backward,
    );
    let mut out = line_buffer();
    print_parts(
        &rt, prepared, &tails, &heads, &weights, &list, &forward, &backward, &mut out,
    );
}
