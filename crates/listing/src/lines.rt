// The lines of one source: five queries, and a line for each vertex.
ghost use Rattle.std.specs.Prelude.{◌≡◌, List, ◌+◌, ◌*◌, ◌≤◌, ◌<◌, length, get_or};
ghost use Rattle.property.specs.Property.{properties};
ghost use Rattle.graph.specs.Limits.{max_vertices};
ghost use Rattle.graph.specs.Edge.{Edge, range};
ghost use Rattle.calls.specs.Code.{network};
ghost use Rattle.writer.specs.Code.{Fits, Wrote};
ghost use Rattle.listing.specs.Listing.{graph, landmarks_of, lines_of, refused_line, header};
ghost use Rattle.listing.specs.Code.{max_first, LinesFit, settled_row, Rows, rows_line, rows_lines};

use graph::words;
use writer::put;

// A row of settled words for each property.
const SETTLED_WORDS: usize = property::PROPERTIES * graph::VERTEX_WORDS;

// The settled words of a query with an empty schedule.
fn settle_row(
    n: u32,
    landmarks: &[u32],
    tails: &[u32],
    heads: &[u32],
    weights: &[u32],
    count: u32,
    forward: &[u32],
    backward: &[u32],
    property: u32,
    source: u32,
    row: &mut [u32],
)
    requires { (n ≤ max_vertices) × (length row.old ≡ n) }
    ensures { row.new ≡ settled_row n landmarks.now (network tails.now heads.now weights.now forward.now backward.now count) source property }
{
    words::fill(row, 0);
    let size = n as usize;
    let mut starts = [0u32; graph::VERTEX_WORDS];
    let _ = query::query(
        n,
        landmarks,
        tails,
        heads,
        weights,
        count,
        forward,
        backward,
        property,
        source,
        &landmarks[0..0],
        &mut starts[..size],
        row,
    );
}

// The word of a vertex in row `p` of rows that stand one after the other, each of `n` words.
fn word(rows: &[u32], n: usize, p: usize, vertex: usize) -> usize
    requires { Rows n rows.now × (p < properties) × (vertex < n) }
    ensures { result ≡ get_or rows.now (p * n + vertex) 0 }
{
    rows[p * n + vertex] as usize
}

// The line of a source and a vertex, both from 1, with the vertex's word of each row.
fn put_vertex(
    source: u32,
    vertex: usize,
    n: usize,
    rows: &[u32],
    at: usize,
    out: &mut [u8],
) -> usize
    requires rows { Rows n rows.now × (vertex < n) }
    requires fits { Fits (rows_line source vertex n rows.now) at out.old }
    ensures { Wrote (rows_line source vertex n rows.now) at out.old result out.new }
{
    let values = [
        vertex + 1,
        word(rows, n, 0, vertex),
        word(rows, n, 1, vertex),
        word(rows, n, 2, vertex),
        word(rows, n, 3, vertex),
        word(rows, n, 4, vertex),
    ];
    put::put_numbers(source as usize + 1, &values, at, out)
}

// The lines of a source, vertex ascending.
fn put_vertices(n: usize, source: u32, rows: &[u32], out: &mut [u8]) -> usize
    requires { Rows n rows.now × LinesFit n out.old }
    ensures wrote { Wrote (rows_lines source n rows.now (range 0 n)) 0 out.old result out.new }
    ensures upper_bound { result ≤ length out.new }
{
    let mut end = 0;
    for t in 0..n {
        end = put_vertex(source, t, n, rows, end, out);
    }
    end
}

// The lines of a source: a query for each property, its settled words in a row of their own.
pub fn put_source(
    n: u32,
    landmarks: &[u32],
    tails: &[u32],
    heads: &[u32],
    weights: &[u32],
    count: u32,
    forward: &[u32],
    backward: &[u32],
    source: u32,
    out: &mut [u8],
) -> usize
    requires { LinesFit n out.old }
    ensures wrote { (es : List Edge) → landmarks_of (graph n es) ≡ landmarks.now → Wrote (lines_of (graph n es) (network tails.now heads.now weights.now forward.now backward.now count) source (range 0 n)) 0 out.old result out.new }
    ensures upper_bound { result ≤ length out.new }
{
    let size = n as usize;
    let mut rows = [0u32; SETTLED_WORDS];
    for p in 0..property::PROPERTIES {
        let from = p * size;
        let to = from + size;
        settle_row(
            n,
            landmarks,
            tails,
            heads,
            weights,
            count,
            forward,
            backward,
            p as u32 + 1,
            source,
            &mut rows[from..to],
        );
    }
    put_vertices(size, source, &rows, out)
}

// The line of a refusal.
pub fn put_refused(number: u32, place: usize, out: &mut [u8]) -> usize
    requires { max_first ≤ length out.old }
    ensures wrote { Wrote (refused_line number place) 0 out.old result out.new }
    ensures upper_bound { result ≤ length out.new }
{
    put::put_line(b"refused", &[number as usize, place], 0, out)
}

// The header.
pub fn put_header(out: &mut [u8]) -> usize
    requires { max_first ≤ length out.old }
    ensures wrote { Wrote header 0 out.old result out.new }
    ensures upper_bound { result ≤ length out.new }
{
    put::put_word(
        b"source station time handovers headroom worst reach\n",
        0,
        out,
    )
}
