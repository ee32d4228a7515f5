// The rows of both sides of a batch, with its changes listed and both tables indexed: each is run in its place.
#![tactic(auto)]

ghost use Rattle.std.specs.Prelude.{List, ◌*◌, ◌≤◌, length};
ghost use Rattle.graph.specs.Limits.{max_vertices};
ghost use Rattle.graph.specs.Edge.{Edge};
ghost use Rattle.network.specs.Network.{row_count};
ghost use Rattle.calls.specs.Code.{Placed};
ghost use Rattle.sides.specs.Code.{Lined, Sides, SidesDone};

use rows::Rowed;

// All rows of both lists. Forward rows go by the index of each table, backward rows by the reversed ones, `rold` and `rnew`, and by the changes
// with tails and heads changed over; the index of the edges into a vertex is that of the other side.
pub fn batch_sides(
    n: usize,
    landmarks: &[u32],
    net: &mut [u32],
    old: &[u32],
    rold: &[u32],
    new: &[u32],
    rnew: &[u32],
    forward: &mut [u32],
    backward: &mut [u32],
) -> Rowed
    requires n_le_max_vertices { (n ≤ max_vertices) × Placed n landmarks.now × Lined n net.old old.now rold.now new.now rnew.now }
    requires n_in_bounds { (row_count landmarks.now * n ≤ length forward.old) × (row_count landmarks.now * n ≤ length backward.old) }
    ensures { (es fs : List Edge) → Sides n es fs net.old old.now rold.now new.now rnew.now → SidesDone n landmarks.now es fs forward.old backward.old forward.new backward.new result }
{
    let f = rows::batch_side(n, landmarks, net, old, new, rnew, forward);
    compare::turn(net);
    let b = rows::batch_side(n, landmarks, net, rold, rnew, new, backward);
    Rowed {
        affected: f.affected + b.affected,
        stores: f.stores + b.stores,
    }
}
