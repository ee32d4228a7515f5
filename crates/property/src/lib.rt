// The five properties of routes, by number: what a run computes with. Every sum saturates.
#![tactic(auto)]

ghost use Rattle.std.specs.Prelude.{◌≡◌};
ghost use Rattle.property.specs.Property.{plus, property};

// How many properties there are: `properties` of specs/Property.antt is the same number. Their numbers are 1 to this.
pub const PROPERTIES: usize = 5;

// The greatest word, 4,294,967,295, at which sums stop.
pub const GREATEST: u32 = 0xffff_ffff;

// The sum of two words, or the greatest word where it is no less than that.
fn sum(a: u32, b: u32) -> u32
    ensures { result ≡ plus a b }
{
    a.saturating_add(b)
}

// The value at the source.
pub fn start(p: u32) -> u32
    ensures { result ≡ (property p).start }
{
    match p {
        1 => 0,
        2 => 0,
        3 => GREATEST,
        4 => 0,
        _ => 1,
    }
}

// The word of a vertex without a route.
pub fn none(p: u32) -> u32
    ensures { result ≡ (property p).none }
{
    match p {
        1 => GREATEST,
        2 => GREATEST,
        3 => 0,
        4 => GREATEST,
        _ => 0,
    }
}

// The value `v` after an edge of weight `w`.
pub fn along(p: u32, v: u32, w: u32) -> u32
    ensures { result ≡ (property p).along v w }
{
    match p {
        1 => sum(v, w),
        2 => sum(v, 1),
        3 => v.min(w),
        4 => v.max(w),
        _ => v,
    }
}

// Whether `a` is better than `b`.
pub fn better(p: u32, a: u32, b: u32) -> bool
    ensures { result ≡ (property p).better a b }
{
    match p {
        1 => a < b,
        2 => a < b,
        3 => b < a,
        4 => a < b,
        _ => b < a,
    }
}

// The value of a way to a vertex, `a`, and of a way on from it, `b`.
pub fn join(p: u32, a: u32, b: u32) -> u32
    ensures { result ≡ (property p).join a b }
{
    match p {
        1 => sum(a, b),
        2 => sum(a, b),
        3 => a.min(b),
        4 => a.max(b),
        _ => a.min(b),
    }
}

// Whether the weight `a` is worse than the weight `b`.
pub fn worse(p: u32, a: u32, b: u32) -> bool
    ensures { result ≡ (property p).worse a b }
{
    match p {
        1 => b < a,
        2 => false,
        3 => a < b,
        4 => b < a,
        _ => false,
    }
}
