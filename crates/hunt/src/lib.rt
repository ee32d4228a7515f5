// The hunt for the vertices of a row that a batch affects: the old edges are taken from last to first, pass by pass until one adds none. An edge marks
// its head where it holds it up, and is removed or has its tail marked. A pass leaves out vertices none of whose edges can add anything: `todo` has at
// least the others. It has them by their number from the far end, n - 1 - u for vertex u, so that the next one to do is the highest.
#![tactic(auto)]

ghost use Rattle.std.specs.Prelude.{◌≡◌, true, cond, ◌+◌, ◌-◌, ◌<◌, ◌≤◌, length, get_or, set};
ghost use mathlib.Core.List.{List, Memᴰ};
ghost use Rattle.property.specs.Property.{property};
ghost use Rattle.frontier.specs.Waiting.{waiting_of};
ghost use Rattle.graph.specs.Limits.{max_vertices};
ghost use Rattle.graph.specs.Arc.{arc_head};
ghost use Rattle.graph.specs.Edge.{Edge};
ghost use Rattle.graph.specs.Index.{Own};
ghost use Rattle.run.specs.Code.{bits, Marks};
ghost use Rattle.affected.specs.Net.{lost};
ghost use Rattle.affected.specs.Affected.{Named, marked, affected};
ghost use Rattle.hunt.specs.Code.{holds, marks_head, from_end, Hunting, Counterparts, Touched, Shut, SweepDone};

use frontier::Words;
use graph::arc;

// Whether the edge from a vertex with word `v`, of weight `w`, holds up its head `h`, whose word is `x`: it is tight, and the head
// is not the landmark `s` and has a route.
pub fn is_held(p: u32, s: u32, v: u32, w: u32, h: u32, x: u32) -> bool
    ensures { result ≡ holds (property p) s v w h x }
{
    (property::along(p, v, w) == x) & ((h != s) & (x != property::none(p)))
}

// Whether the weight `w` is lost to the property where `other` stands in its place, 0 for none: nothing, or a worse weight.
pub fn is_lost(p: u32, w: u32, other: u32) -> bool
    ensures { result ≡ lost (property p) w other }
{
    (other == 0) | property::worse(p, other, w)
}

// One old edge, the arc `a` of a vertex with word `v`, marked or not as `on` says; `other` has what is now in its place. Where it marks its head, the
// head is to do.
fn touch(
    p: u32,
    s: u32,
    v: u32,
    on: bool,
    a: u32,
    other: u32,
    words: &[u32],
    marks: &mut Words,
    todo: &mut Words,
)
    requires { (arc_head a < length words.now) × (length words.now ≤ max_vertices) }
    ensures marks_after { waiting_of marks.new ≡ cond (marks_head (property p) s words.now (waiting_of marks.old) v on a other) (set (waiting_of marks.old) (arc_head a) true) (waiting_of marks.old) }
    ensures todo_after { waiting_of todo.new ≡ cond (marks_head (property p) s words.now (waiting_of marks.old) v on a other) (set (waiting_of todo.old) (from_end (length words.now) (arc_head a)) true) (waiting_of todo.old) }
{
    let h = arc::head(a);
    let j = h as usize;
    if frontier::contains(marks, j) {
        return;
    }
    let w = arc::weight(a);
    if is_held(p, s, v, w, h, words[j]) & (on | is_lost(p, w, arc::weight(other))) {
        frontier::insert(marks, j);
        frontier::insert(todo, words.len() - 1 - j);
    }
}

// The old edges of vertex `u`, from last to first.
fn touch_all(
    p: u32,
    s: u32,
    u: usize,
    on: bool,
    old: &[u32],
    other: &[u32],
    words: &[u32],
    marks: &mut Words,
    todo: &mut Words,
)
    requires { (u < length words.now) × Hunting (length words.now) words.now old.now other.now marks.old todo.old }
    ensures { Touched (property p) (length words.now) s words.now old.now other.now u on (get_or old.now u 0) (get_or old.now (u + 1) 0 - get_or old.now u 0) marks.old todo.old marks.new todo.new }
{
    let v = words[u];
    let lo = old[u] as usize;
    let hi = old[u + 1] as usize;
    for j in (lo..hi).rev() {
        touch(p, s, v, on, old[j], other[j], words, marks, todo);
    }
}

// The same, with the property and whether `u` is marked literal in each arm, so that these tests are made once and not at each edge.
fn touch_vertex(
    p: u32,
    s: u32,
    u: usize,
    old: &[u32],
    other: &[u32],
    words: &[u32],
    marks: &mut Words,
    todo: &mut Words,
)
    requires { (u < length words.now) × Hunting (length words.now) words.now old.now other.now marks.old todo.old }
    ensures { Touched (property p) (length words.now) s words.now old.now other.now u (marked (waiting_of marks.old) u) (get_or old.now u 0) (get_or old.now (u + 1) 0 - get_or old.now u 0) marks.old todo.old marks.new todo.new }
{
    if frontier::contains(marks, u) {
        match p {
            1 => touch_all(1, s, u, true, old, other, words, marks, todo),
            2 => touch_all(2, s, u, true, old, other, words, marks, todo),
            3 => touch_all(3, s, u, true, old, other, words, marks, todo),
            4 => touch_all(4, s, u, true, old, other, words, marks, todo),
            _ => touch_all(5, s, u, true, old, other, words, marks, todo),
        }
    } else {
        match p {
            1 => touch_all(1, s, u, false, old, other, words, marks, todo),
            2 => touch_all(2, s, u, false, old, other, words, marks, todo),
            3 => touch_all(3, s, u, false, old, other, words, marks, todo),
            4 => touch_all(4, s, u, false, old, other, words, marks, todo),
            _ => touch_all(5, s, u, false, old, other, words, marks, todo),
        }
    }
}

// A pass: the vertices that are to do, from the highest down, and of each the old edges from last to first. A vertex is to do no more when its edges
// are taken; one that is marked on the way is, and comes later in the pass where it is lower. No edge of any other vertex can mark its head.
pub fn sweep(
    p: u32,
    n: usize,
    s: u32,
    old: &[u32],
    other: &[u32],
    words: &[u32],
    marks: &mut Words,
    todo: &mut Words,
)
    requires { Hunting n words.now old.now other.now marks.old todo.old }
    ensures { SweepDone (property p) n s words.now old.now other.now marks.old todo.old marks.new todo.new }
{
    let mut i = 0;
    // kept as a `while`: a turn leads to the next vertex that is to do, and `next_from` may be asked below the last one alone
    while i < n {
        let Some(k) = frontier::next_from(todo, i) else {
            return;
        };
        frontier::remove(todo, k);
        touch_vertex(p, s, n - 1 - k, old, other, words, marks, todo);
        i = k + 1;
    }
}

// Pass by pass while a vertex is to do: after a pass that adds none, none is.
pub fn hunt(
    p: u32,
    n: usize,
    s: u32,
    old: &[u32],
    other: &[u32],
    words: &[u32],
    marks: &mut Words,
    todo: &mut Words,
)
    requires { Hunting n words.now old.now other.now marks.old todo.old }
    ensures marks { Marks n marks.new }
    ensures marks_after { (es fs : List Edge) → ((e : Edge) → Memᴰ e es → (e.tail < n) × (e.head < n)) → Own n old.now es → Counterparts n es fs old.now other.now → Named (property p) es fs s words.now (waiting_of marks.old) → Shut (property p) n es fs s words.now old.now (waiting_of marks.old) (waiting_of todo.old) → bits n marks.new ≡ affected (property p) es fs s words.now n }
{
    while frontier::any(todo) {
        sweep(p, n, s, old, other, words, marks, todo);
    }
}
