// Changes of five words each, laid in one list: their kinds, tails, heads, weights and old weights, each from its own place on.
ghost use Rattle.std.specs.Prelude.{◌≡◌, ◌+◌, ◌*◌, ◌≤◌, ◌<◌, length, take, drop};
ghost use Rattle.graph.specs.Limits.{max_batch};
ghost use Rattle.items.specs.Code.{change, changes_of, put_change, Laid};

// The words of a change go to place `i` of the five lists.
pub fn put_change(
    lists: &mut [u32],
    i: usize,
    kind: u32,
    tail: u32,
    head: u32,
    weight: u32,
    old: u32,
)
    requires { (i < max_batch) × (length lists.old ≡ 5 * max_batch) }
    ensures { lists.new ≡ put_change lists.old i (change kind tail head weight old) }
{
    lists[i] = kind;
    lists[super::TAILS + i] = tail;
    lists[super::HEADS + i] = head;
    lists[super::WEIGHTS + i] = weight;
    lists[super::OLDS + i] = old;
}

// The `size` changes from index `from` on, or as many of them as there is room for.
pub fn lay(changes: &[[u32; 5]], from: usize, size: usize, lists: &mut [u32])
    requires { (from + size ≤ length changes.now) × (length lists.old ≡ 5 * max_batch) }
    ensures { Laid size (take size (drop from (changes_of changes.now))) lists.new }
{
    let most = size.min(graph::MAX_BATCH);
    for i in 0..most {
        let k = from + i;
        put_change(
            lists,
            i,
            changes[k][0],
            changes[k][1],
            changes[k][2],
            changes[k][3],
            changes[k][4],
        );
    }
}
