// A frontier: one waiting bit for each vertex, in words of 64 bits. Each contract is an equation over `waiting_of`, the list of the bits,
// so that a caller reasons about a list of Bool alone. The operations are on arrays of any number of words; a frontier has `WORDS`. Each calls its form
// on slices, which serves words whose number is known only when they are lent.
// Where bits are numbered or counted, a `usize` must be able to hold how many there are.
#![tactic(auto)]

pub mod slices;

ghost use Rattle.std.specs.Prelude.{◌≡◌, true, false, ◌*◌, ◌^◌, ◌<◌, length, get_or, set, replicate};
ghost use Rattle.frontier.specs.Waiting.{waiting_of, capacity, next_from, any_of, count_of};

// How many words a frontier has, a bit for each of 256 vertices: `word_count` of specs/Waiting.antt is the same number.
pub const WORDS: usize = 4;

pub type Words = [u64; WORDS];

// Nobody waits.
pub fn empty() -> Words
    ensures { waiting_of result ≡ replicate capacity false }
{
    [0u64; WORDS]
}

// Nobody waits any more.
pub fn clear<const N: usize>(ws: &mut [u64; N])
    ensures { waiting_of ws.new ≡ replicate (64 * N) false }
{
    slices::clear(ws);
}

// Vertex `i` waits.
pub fn insert<const N: usize>(ws: &mut [u64; N], i: usize)
    requires { i < 64 * N }
    ensures { waiting_of ws.new ≡ set (waiting_of ws.old) i true }
{
    slices::insert(ws, i);
}

// Vertex `i` waits no more.
pub fn remove<const N: usize>(ws: &mut [u64; N], i: usize)
    requires { i < 64 * N }
    ensures { waiting_of ws.new ≡ set (waiting_of ws.old) i false }
{
    slices::remove(ws, i);
}

// Whether vertex `i` waits.
pub fn contains<const N: usize>(ws: &[u64; N], i: usize) -> bool
    requires { i < 64 * N }
    ensures { result ≡ get_or (waiting_of ws.now) i false }
{
    slices::contains(ws, i)
}

// The first vertex at or after `i` that waits. `size` is for callers: nothing else tells them how many bits lie behind a `&Words`.
pub fn next_from<const N: usize>(ws: &[u64; N], i: usize) -> Option<usize>
    requires { (i < 64 * N) × (64 * N < 2 ^ 64) }
    ensures next { result ≡ next_from (waiting_of ws.now) i }
    ensures size { length (waiting_of ws.now) ≡ 64 * N }
{
    slices::next_from(ws, i)
}

// How many vertices wait.
pub fn count<const N: usize>(ws: &[u64; N]) -> usize
    requires { 64 * N < 2 ^ 64 }
    ensures { result ≡ count_of (waiting_of ws.now) }
{
    slices::count(ws)
}

// Whether any vertex waits.
pub fn any<const N: usize>(ws: &[u64; N]) -> bool
    requires { 64 * N < 2 ^ 64 }
    ensures { result ≡ any_of (waiting_of ws.now) }
{
    slices::any(ws)
}
