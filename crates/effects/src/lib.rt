// What becomes of each vertex between two lists of words, and by how much its word moves.
#![tactic(auto)]

ghost use Rattle.std.specs.Prelude.{◌≡◌, map, ◌<◌, ◌≤◌, length, get_or, set, pos, ◌-ℤ◌};
ghost use Rattle.property.specs.Property.{property};
ghost use Rattle.graph.specs.Refusal.{over};
ghost use Rattle.graph.specs.Edge.{range};
ghost use Rattle.answers.specs.Preview.{effect_of, move_of};
ghost use Rattle.effects.specs.Code.{effect_number, effect_move, shown_of};

// What becomes of a vertex. Where it has a route before and after, its word moves by after minus before.
#[derive(Drop)]
pub enum Effect {
    Neither,
    Gained,
    Lost,
    Both(i64),
}

// After minus before.
pub fn difference(before: u32, after: u32) -> i64
    ensures { result ≡ pos after -ℤ pos before }
{
    (after as i64) - (before as i64)
}

// What becomes of a vertex whose word is `before` and then `after`.
fn effect_of(p: u32, before: u32, after: u32) -> Effect
    ensures { (effect_number result ≡ effect_of (property p) before after) × (effect_move result ≡ move_of (property p) before after) }
{
    let none = property::none(p);
    if before == none {
        if after == none {
            return Effect::Neither;
        }
        return Effect::Gained;
    }
    if after == none {
        return Effect::Lost;
    }
    Effect::Both(difference(before, after))
}

// The number of an effect, and the move that it tells, go to place `i` of the two lists.
// Kept as a match: `Both` carries its move, and a move of 0 has the number of `Neither`, so neither a derive nor `as u32` gives the numbers.
fn put_effect(e: Effect, i: usize, effects: &mut [u32], moves: &mut [i64])
    requires { (i < length effects.old) × (i < length moves.old) }
    ensures { (effects.new ≡ set effects.old i (effect_number e)) × (moves.new ≡ set moves.old i (effect_move e)) }
{
    match e {
        Effect::Neither => {
            effects[i] = 0;
            moves[i] = 0;
        }
        Effect::Gained => {
            effects[i] = 1;
            moves[i] = 0;
        }
        Effect::Lost => {
            effects[i] = 2;
            moves[i] = 0;
        }
        Effect::Both(d) => {
            effects[i] = if d == 0 { 0 } else { 3 };
            moves[i] = d;
        }
    }
}

// The effects and moves of all vertices, from their words before and after; entries past them stay.
pub fn show(p: u32, before: &[u32], after: &[u32], effects: &mut [u32], moves: &mut [i64])
    requires { (length before.now ≤ length after.now) × (length before.now ≤ length effects.old) × (length before.now ≤ length moves.old) }
    ensures { shown_of effects.new moves.new ≡ shown_of (over (map (λ t. effect_of (property p) (get_or before.now t 0) (get_or after.now t 0)) (range 0 (length before.now))) effects.old) (over (map (λ t. move_of (property p) (get_or before.now t 0) (get_or after.now t 0)) (range 0 (length before.now))) moves.old) }
{
    for t in 0..before.len() {
        put_effect(effect_of(p, before[t], after[t]), t, effects, moves);
    }
}
