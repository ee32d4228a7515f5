// The rows of one side of a batch: each is prepared for the new edges and settled. `net` is what the batch changed, `old` the index of the
// table before it, `other` what is now in the place of each of its arcs, `new` the index of the table after it, and `into` that of the new table
// reversed. A row is run in its place, and costs a look at each change and what it changes: no row is copied, and none goes over all edges.
#![tactic(auto)]

ghost use Rattle.std.specs.Prelude.{◌≡◌, List, ◌+◌, ◌*◌, ◌<◌, ◌≤◌, length};
ghost use Rattle.graph.specs.Limits.{max_vertices, max_edges};
ghost use Rattle.graph.specs.Edge.{Edge};
ghost use Rattle.compare.specs.Code.{Faces};
ghost use Rattle.network.specs.Network.{row_count};
ghost use Rattle.calls.specs.Code.{Placed};
ghost use Rattle.rows.specs.Code.{Lined, Sided, RowLow, RowDone, RowsLow, RowsDone};

// What runs of rows come to: how many vertices are affected, how many stores there were.
#[derive(Drop)]
pub struct Rowed {
    pub affected: u64,
    pub stores: u64,
}

// Row `r`, whose words before the batch are `words`, is prepared and settled there.
fn batch_row(
    r: usize,
    n: usize,
    landmarks: &[u32],
    net: &[u32],
    old: &[u32],
    other: &[u32],
    new: &[u32],
    into: &[u32],
    words: &mut [u32],
) -> Rowed
    requires { (r < row_count landmarks.now) × Placed n landmarks.now × (length words.old ≡ n) × Lined n net.now old.now new.now into.now × (length old.now ≤ length other.now) }
    ensures row_low { RowLow result }
    ensures row_done { (es fs : List Edge) → Sided n es fs net.now old.now new.now into.now → Faces n es fs old.now other.now → RowDone n landmarks.now es fs words.old r words.new result }
{
    let p = calls::row_property(r);
    let i = calls::row_landmark(r);
    let mut waiting = frontier::empty();
    let affected = prepare::prepare(
        p,
        n,
        landmarks[i],
        net,
        old,
        other,
        into,
        words,
        &mut waiting,
    );
    let t = run::run_unscheduled(p, n, new, words, &mut waiting);
    Rowed {
        affected,
        stores: t.stores,
    }
}

// Every row of the list `rows`, one after the other.
fn batch_rows(
    n: usize,
    landmarks: &[u32],
    net: &[u32],
    old: &[u32],
    other: &[u32],
    new: &[u32],
    into: &[u32],
    rows: &mut [u32],
) -> Rowed
    requires { Placed n landmarks.now × (row_count landmarks.now * n ≤ length rows.old) × Lined n net.now old.now new.now into.now × (length old.now ≤ length other.now) }
    ensures rows_low { RowsLow result }
    ensures rows_done { (es fs : List Edge) → Sided n es fs net.now old.now new.now into.now → Faces n es fs old.now other.now → RowsDone n landmarks.now es fs rows.old rows.new result }
{
    let size = landmarks.len() * property::PROPERTIES;
    let mut affected = 0;
    let mut stores = 0;
    for r in 0..size {
        let start = r * n;
        let end = start + n;
        let row = batch_row(
            r,
            n,
            landmarks,
            net,
            old,
            other,
            new,
            into,
            &mut rows[start..end],
        );
        affected += row.affected;
        stores += row.stores;
    }
    Rowed { affected, stores }
}

// The rows of a side: what is now in the place of each old arc is found once for all of them.
pub fn batch_side(
    n: usize,
    landmarks: &[u32],
    net: &[u32],
    old: &[u32],
    new: &[u32],
    into: &[u32],
    rows: &mut [u32],
) -> Rowed
    requires { Placed n landmarks.now × (row_count landmarks.now * n ≤ length rows.old) × Lined n net.now old.now new.now into.now × (length old.now ≤ max_vertices + 1 + max_edges) }
    ensures rows_low { RowsLow result }
    ensures rows_done { (es fs : List Edge) → Sided n es fs net.now old.now new.now into.now → RowsDone n landmarks.now es fs rows.old rows.new result }
{
    let mut other = [0u32; graph::INDEX_WORDS];
    compare::align(net, old, &mut other);
    batch_rows(n, landmarks, net, old, &other, new, into, rows)
}
