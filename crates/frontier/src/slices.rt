// The operations on any number of words, as slices. `super` has them on arrays, whose number of words is a constant.
// Kept beside those: no array serves words whose number is known only when they are lent.
// Where bits are numbered or counted, a `usize` must be able to hold how many there are.
ghost use Rattle.std.specs.Prelude.{◌≡◌, true, false, ◌*◌, ◌^◌, ◌<◌, length, get_or, set, replicate};
ghost use Rattle.frontier.specs.Waiting.{waiting_of, next_from, any_of, count_of};

// Nobody waits any more.
pub fn clear(ws: &mut [u64])
    ensures { waiting_of ws.new ≡ replicate (64 * length ws.old) false }
{
    ws.fill(0);
}

// Vertex `i` waits.
pub fn insert(ws: &mut [u64], i: usize)
    requires { i < 64 * length ws.old }
    ensures { waiting_of ws.new ≡ set (waiting_of ws.old) i true }
{
    ws[i / 64] |= 1u64 << (i % 64);
}

// Vertex `i` waits no more.
pub fn remove(ws: &mut [u64], i: usize)
    requires { i < 64 * length ws.old }
    ensures { waiting_of ws.new ≡ set (waiting_of ws.old) i false }
{
    ws[i / 64] &= !(1u64 << (i % 64));
}

// Whether vertex `i` waits.
pub fn contains(ws: &[u64], i: usize) -> bool
    requires { i < 64 * length ws.now }
    ensures { result ≡ get_or (waiting_of ws.now) i false }
{
    (ws[i / 64] >> (i % 64)) & 1 == 1
}

// The first vertex from word `from` on that waits: the lowest set bit of the first word that is not 0.
fn next_word(ws: &[u64], from: usize) -> Option<usize>
    requires { 64 * length ws.now < 2 ^ 64 }
    ensures { result ≡ next_from (waiting_of ws.now) (from * 64) }
{
    for k in from..ws.len() {
        if ws[k] != 0 {
            return Some(k * 64 + ws[k].trailing_zeros() as usize);
        }
    }
    None
}

// The first vertex at or after `i` that waits: in the word of `i`, with the bits below `i` masked, or in the words after it.
pub fn next_from(ws: &[u64], i: usize) -> Option<usize>
    requires { (i < 64 * length ws.now) × (64 * length ws.now < 2 ^ 64) }
    ensures { result ≡ next_from (waiting_of ws.now) i }
{
    let k = i / 64;
    let w = ws[k] & (u64::MAX << (i % 64));
    if w != 0 {
        return Some(k * 64 + w.trailing_zeros() as usize);
    }
    next_word(ws, k + 1)
}

// How many vertices wait.
pub fn count(ws: &[u64]) -> usize
    requires { 64 * length ws.now < 2 ^ 64 }
    ensures { result ≡ count_of (waiting_of ws.now) }
{
    let mut n: usize = 0;
    for w in ws {
        n += w.count_ones() as usize;
    }
    n
}

// Whether any vertex waits.
pub fn any(ws: &[u64]) -> bool
    requires { 64 * length ws.now < 2 ^ 64 }
    ensures { result ≡ any_of (waiting_of ws.now) }
{
    count(ws) != 0
}
