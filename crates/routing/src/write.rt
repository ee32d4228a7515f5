// The writing of a route that was found: back from its target along the arcs by which its vertices were found, then its marks from the source on, by its
// figures.
ghost use Rattle.std.specs.Prelude.{◌≡◌, cond, List, ℕ, suc, ◌≤◌, length};
ghost use Rattle.property.specs.Property.{property};
ghost use Rattle.graph.specs.Refusal.{over};
ghost use Rattle.graph.specs.Edge.{Edge};
ghost use Rattle.graph.specs.Leads.{visited, weights_of};
ghost use Rattle.answers.specs.Routing.{is_marked, marks_of};
ghost use Rattle.search.specs.Code.{Trace};

use graph::arc;

// How many edges lead back from `t` to `s`.
fn edges_back(s: u32, t: u32, via: &[u32]) -> usize
    requires { (ps : List Edge) × Trace s t via.now ps }
    ensures { (ps : List Edge) → Trace s t via.now ps → result ≡ length ps }
{
    let mut u = t;
    let mut k = 0;
    while u != s {
        u = arc::head(via[u as usize]);
        k += 1;
    }
    k
}

// The vertices of the route of `k` edges to `t`, and for each edge its weight, from the last one back.
fn write_back(t: u32, k: usize, via: &[u32], vertices: &mut [u32], figures: &mut [u32])
    requires { ((s : ℕ) × (ps : List Edge) × Trace s t via.now ps × (k ≡ length ps)) × (length via.now ≤ length vertices.old) × (length via.now ≤ length figures.old) }
    ensures { (s : ℕ) (ps : List Edge) → Trace s t via.now ps → k ≡ length ps → (vertices.new ≡ over (visited s ps) vertices.old) × (figures.new ≡ over (weights_of ps) figures.old) }
{
    let mut u = t;
    vertices[k] = u;
    for i in (0..k).rev() {
        let a = via[u as usize];
        u = arc::head(a);
        vertices[i] = u;
        figures[i] = arc::weight(a);
    }
}

// The mark of an edge before which the running value is `v`, and `x` after it.
fn mark(p: u32, v: u32, x: u32) -> u32
    ensures { (e : Edge) → x ≡ (property p).along v e.weight → result ≡ cond (is_marked p v e) 1 0 }
{
    if (p <= 2) | ((p <= 4) & (x != v)) {
        1
    } else {
        0
    }
}

// The marks of `k` edges, by their figures.
fn mark_edges(p: u32, k: usize, figures: &[u32], marks: &mut [u32])
    requires { (k ≤ length figures.now) × (k ≤ length marks.old) }
    ensures { (ps : List Edge) (ws : List ℕ) → length ps ≡ k → figures.now ≡ over (weights_of ps) ws → marks.new ≡ over (marks_of p (property p).start ps) marks.old }
{
    let mut v = property::start(p);
    for i in 0..k {
        let x = property::along(p, v, figures[i]);
        marks[i] = mark(p, v, x);
        v = x;
    }
}

// The route to `t`, its vertices, marks and figures; how many vertices it has.
pub fn write_route(
    p: u32,
    s: u32,
    t: u32,
    via: &[u32],
    vertices: &mut [u32],
    marks: &mut [u32],
    figures: &mut [u32],
) -> u32
    requires { ((ps : List Edge) × Trace s t via.now ps) × (length via.now ≤ length vertices.old) × (length via.now ≤ length marks.old) × (length via.now ≤ length figures.old) }
    ensures { (ps : List Edge) → Trace s t via.now ps → (result ≡ suc (length ps)) × (vertices.new ≡ over (visited s ps) vertices.old) × (marks.new ≡ over (marks_of p (property p).start ps) marks.old) × (figures.new ≡ over (weights_of ps) figures.old) }
{
    let k = edges_back(s, t, via);
    write_back(t, k, via, vertices, figures);
    mark_edges(p, k, figures, marks);
    k as u32 + 1
}
