// The route behind a value: its refusals and its writing, with the search for it between them.
#![tactic(auto)]

pub mod write;

ghost use Rattle.std.specs.Prelude.{◌≡◌, length};
ghost use Rattle.graph.specs.Code.{told, columns};
ghost use Rattle.answers.specs.Routing.{route_faults, route_call};
ghost use Rattle.routing.specs.Code.{requesting, request_of, answer_of, route_outcome, unfaulted, Routable};

use graph::{Refusal, rules};

// What is asked: the route for a property from a source to a target.
#[derive(Clone, Copy)]
struct Request {
    property: u32,
    source: u32,
    target: u32,
}

// Numbers 1 to 6 of a request, where the lists for the answer have `vertices`, `marks` and `figures` words.
fn judge_route(
    n: u32,
    tails: &[u32],
    heads: &[u32],
    weights: &[u32],
    count: u32,
    request: Request,
    vertices: usize,
    marks: usize,
    figures: usize,
) -> Result<(), Refusal>
    ensures { told result ≡ route_faults n (columns tails.now heads.now weights.now) count (request_of request) vertices marks figures }
{
    let size = n as usize;
    let outputs = rules::refuse_if(
        (vertices < size) | ((marks < size) | (figures < size)),
        Refusal::Short,
    );
    rules::judge_bare(n, tails, heads, weights, count, outputs)?;
    if !calls::is_property(request.property) {
        return Err(Refusal::Property);
    }
    rules::refuse_if(
        !((request.source < n) & (request.target < n)),
        Refusal::Vertex(0),
    )
}

// The route of a request that numbers 1 to 6 let pass: 15, or its vertices, marks and figures are written; how many vertices it has. `via` is
// scratch.
fn find_route(
    n: usize,
    tails: &[u32],
    heads: &[u32],
    weights: &[u32],
    count: usize,
    request: Request,
    via: &mut [u32],
    vertices: &mut [u32],
    marks: &mut [u32],
    figures: &mut [u32],
) -> Result<u32, Refusal>
    requires { Routable n count request.property request.source request.target tails.now heads.now weights.now vertices.old marks.old figures.old × (length via.old ≡ n) }
    ensures { route_outcome result vertices.new marks.new figures.new ≡ unfaulted n (columns tails.now heads.now weights.now) count (request_of request) (answer_of vertices.old marks.old figures.old) }
{
    let p = request.property;
    let source = request.source;
    let target = request.target;
    let s = source as usize;
    let t = target as usize;
    if !search::find(p, n, s, t, count, tails, heads, weights, via) {
        return Err(Refusal::NoRoute);
    }
    Ok(write::write_route(p, source, target, via, vertices, marks, figures))
}

// The route from source to target: refused, or its vertices, marks and figures are written to their lists; how many vertices it has. Words past
// them stay.
pub fn route(
    n: u32,
    tails: &[u32],
    heads: &[u32],
    weights: &[u32],
    count: u32,
    property: u32,
    source: u32,
    target: u32,
    vertices: &mut [u32],
    marks: &mut [u32],
    figures: &mut [u32],
) -> Result<u32, Refusal>
    ensures { route_outcome result vertices.new marks.new figures.new ≡ route_call n (columns tails.now heads.now weights.now) count (requesting property source target) (answer_of vertices.old marks.old figures.old) }
{
    let request = Request {
        property,
        source,
        target,
    };
    judge_route(
        n,
        tails,
        heads,
        weights,
        count,
        request,
        vertices.len(),
        marks.len(),
        figures.len(),
    )?;
    let size = n as usize;
    let mut via = [0u32; graph::VERTEX_WORDS];
    find_route(
        size,
        tails,
        heads,
        weights,
        count as usize,
        request,
        &mut via[..size],
        vertices,
        marks,
        figures,
    )
}
