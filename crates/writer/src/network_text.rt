// The text of a network: its length, its lines, and the call that writes it.
ghost use Rattle.std.specs.Prelude.{◌≡◌, [], ◌∷◌, ◌++◌, ◌*◌, ◌≤◌, length};
ghost use Rattle.graph.specs.Limits.{max_edges};
ghost use Rattle.graph.specs.Refusal.{◌▷◌};
ghost use Rattle.graph.specs.Edge.{edge, edges};
ghost use Rattle.graph.specs.Table.{size, short_table, table};
ghost use Rattle.graph.specs.Code.{told, Room, columns};
ghost use Rattle.dimacs.specs.Network.{problem, arc, item_of};
ghost use Rattle.dimacs.specs.Call.{write_call};
ghost use Rattle.writer.specs.Code.{Fits, Wrote, arcs_of, write_outcome};

use super::put;
use graph::{Refusal, rules};

// The length of the p line, with its line feed.
fn problem_width(n: u32, count: u32) -> usize
    ensures value { result ≡ length (item_of (problem n count) ++ (10 ∷ [])) }
    ensures upper_bound { result ≤ 47 }
{
    5 + put::fields_width(&[n as usize, count as usize])
}

// The length of an a line, with its line feed. Vertices count from 1 in the text.
fn arc_width(t: u32, h: u32, w: u32) -> usize
    ensures value { result ≡ length (item_of (arc (edge t h w)) ++ (10 ∷ [])) }
    ensures upper_bound { result ≤ 65 }
{
    2 + put::fields_width(&[t as usize + 1, h as usize + 1, w as usize])
}

// The length of all a lines.
fn arcs_width(tails: &[u32], heads: &[u32], weights: &[u32], count: usize) -> usize
    requires { (count ≤ max_edges) × Room count tails.now heads.now weights.now }
    ensures value { result ≡ length (arcs_of (edges tails.now heads.now weights.now count)) }
    ensures upper_bound { result ≤ 65 * count }
{
    let mut sum: usize = 0;
    for k in 0..count {
        sum += arc_width(tails[k], heads[k], weights[k]);
    }
    sum
}

// The p line.
fn put_problem(n: u32, count: u32, at: usize, out: &mut [u8]) -> usize
    requires { Fits (item_of (problem n count) ++ (10 ∷ [])) at out.old }
    ensures { Wrote (item_of (problem n count) ++ (10 ∷ [])) at out.old result out.new }
{
    put::put_line(b"p sp", &[n as usize, count as usize], at, out)
}

// An a line. Vertices count from 1 in the text.
fn put_arc(t: u32, h: u32, w: u32, at: usize, out: &mut [u8]) -> usize
    requires { Fits (item_of (arc (edge t h w)) ++ (10 ∷ [])) at out.old }
    ensures { Wrote (item_of (arc (edge t h w)) ++ (10 ∷ [])) at out.old result out.new }
{
    put::put_line(b"a", &[t as usize + 1, h as usize + 1, w as usize], at, out)
}

// The a lines, in table order.
fn put_arcs(
    tails: &[u32],
    heads: &[u32],
    weights: &[u32],
    count: usize,
    at: usize,
    out: &mut [u8],
) -> usize
    requires room { Room count tails.now heads.now weights.now }
    requires fits { Fits (arcs_of (edges tails.now heads.now weights.now count)) at out.old }
    ensures { Wrote (arcs_of (edges tails.now heads.now weights.now count)) at out.old result out.new }
{
    let mut end = at;
    for k in 0..count {
        end = put_arc(tails[k], heads[k], weights[k], end, out);
    }
    end
}

// Numbers 1, 2 of the table's lists, and 4. It does not go by `rules::judge_bare`, whose judge of records goes by vectors and saves registers: that
// would be half of this call's stack.
fn judge_write(
    n: u32,
    tails: &[u32],
    heads: &[u32],
    weights: &[u32],
    count: u32,
) -> Result<(), Refusal>
    ensures { told result ≡ (size n ▷ short_table (columns tails.now heads.now weights.now) ▷ table n (columns tails.now heads.now weights.now) count) }
{
    rules::judge_size(n)?;
    rules::judge_lengths(tails, heads, weights)?;
    rules::judge_table_plainly(n, tails, heads, weights, count)
}

// A network's text, written to the lent buffer, and its length; bytes past it stay. Only the buffer is judged last.
pub fn write_network(
    n: u32,
    tails: &[u32],
    heads: &[u32],
    weights: &[u32],
    count: u32,
    text: &mut [u8],
) -> Result<usize, Refusal>
    ensures { write_outcome result text.new ≡ write_call n (columns tails.now heads.now weights.now) count text.old }
{
    judge_write(n, tails, heads, weights, count)?;
    let records = count as usize;
    let length = problem_width(n, count) + arcs_width(tails, heads, weights, records);
    if text.len() < length {
        return Err(Refusal::Short);
    }
    let arcs = put_problem(n, count, 0, text);
    put_arcs(tails, heads, weights, records, arcs, text);
    Ok(length)
}
