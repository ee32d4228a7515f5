// An arc: the head and the weight of an edge in one word, so that an index is one list.
ghost use Rattle.std.specs.Prelude.{◌≡◌, ◌<◌};
ghost use Rattle.graph.specs.Arc.{arc_heads, arc_weights, arc, arc_head, arc_weight, head_in, weight_in};

// One more than the greatest weight of an arc.
pub const WEIGHTS: u32 = 131072;

// The arc of a head and a weight.
pub fn arc(h: u32, w: u32) -> u32
    requires { (h < arc_heads) × (w < arc_weights) }
    ensures { result ≡ arc h w }
{
    h * WEIGHTS + w
}

// The head of an arc.
pub fn head(a: u32) -> u32
    ensures { result ≡ arc_head a }
{
    a / WEIGHTS
}

// The weight of an arc.
pub fn weight(a: u32) -> u32
    ensures { result ≡ arc_weight a }
{
    a % WEIGHTS
}

// The head that a word gives: that of an arc where `packed`, else the word itself.
pub fn head_in(packed: bool, a: u32) -> u32
    ensures { result ≡ head_in packed a }
{
    if packed { head(a) } else { a }
}

// The weight that a word gives: that of an arc where `packed`, else the word itself.
pub fn weight_in(packed: bool, a: u32) -> u32
    ensures { result ≡ weight_in packed a }
{
    if packed { weight(a) } else { a }
}
