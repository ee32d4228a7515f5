// A digest of what a batch would do, from the two lists of a preview.
#![tactic(auto)]

ghost use Rattle.std.specs.Prelude.{◌≡◌, ◌&&◌, ◌≤◌, ◌<◌, length, eqb};
ghost use Rattle.property.specs.Property.{property};
ghost use Rattle.graph.specs.Limits.{max_vertices};
ghost use Rattle.graph.specs.Code.{told};
ghost use Rattle.effects.specs.Code.{shown_of};
ghost use Rattle.answers.specs.Digest as spec;
ghost use Rattle.digest.specs.Code.{digesting};

use graph::{Refusal, rules};

// How many vertices gained a route, lost it, got better and got worse, and the one that loses most, or how many vertices there are where none loses.
#[derive(Drop)]
pub struct Digest {
    pub gained: u32,
    pub lost: u32,
    pub better: u32,
    pub worse: u32,
    pub most: u32,
}

// Numbers 1, 2 and 5.
fn judge_digest(n: u32, property: u32, effects: usize, moves: usize) -> Result<(), Refusal>
    ensures { told result ≡ spec.digest_faults n property effects moves }
{
    rules::judge_size(n)?;
    calls::judge_outputs(n, effects, moves)?;
    rules::refuse_if(!calls::is_property(property), Refusal::Property)
}

// Whether a move by `d` is one for the better.
fn improves(p: u32, d: i64) -> bool
    ensures { result ≡ spec.improves (property p) d }
{
    if property::better(p, 1, 0) {
        0 < d
    } else {
        d < 0
    }
}

// Whether it is one for the worse.
fn worsens(p: u32, d: i64) -> bool
    ensures { result ≡ spec.worsens (property p) d }
{
    if property::better(p, 1, 0) {
        d < 0
    } else {
        0 < d
    }
}

// Whether it is one for the better where `good` holds, and else for the worse.
fn moves_to(p: u32, good: bool, d: i64) -> bool
    ensures { result ≡ spec.moves_to (property p) good d }
{
    if good { improves(p, d) } else { worsens(p, d) }
}

// How many of `n` vertices have the effect `e`.
fn count_effect(n: usize, e: u32, effects: &[u32]) -> u32
    requires { (n ≤ max_vertices) × (n ≤ length effects.now) }
    ensures { result ≡ spec.how_many (λ t. eqb (spec.effect_at effects.now t) e) n }
{
    let mut count = 0;
    for &effect in &effects[..n] {
        if effect == e {
            count += 1;
        }
    }
    count
}

// How many of `n` vertices moved for the better where `good` holds, and else for the worse.
fn count_moved(p: u32, n: usize, good: bool, effects: &[u32], moves: &[i64]) -> u32
    requires { (n ≤ max_vertices) × (n ≤ length effects.now) × (n ≤ length moves.now) }
    ensures { result ≡ spec.how_many (λ t. eqb (spec.effect_at effects.now t) 3 && spec.moves_to (property p) good (spec.move_at moves.now t)) n }
{
    let mut count = 0;
    for t in 0..n {
        let d = moves[t];
        if effects[t] == 3 && moves_to(p, good, d) {
            count += 1;
        }
    }
    count
}

// Whether a vertex with the effect `e` and the move `d` loses.
fn is_loser(p: u32, e: u32, d: i64) -> bool
    ensures { result ≡ spec.is_loss (property p) e d }
{
    e == 2 || e == 3 && worsens(p, d)
}

// Whether of two vertices that lose, one with the effect `e` and the move `d` loses more than one with `f` and `g`.
fn loses_more(p: u32, e: u32, d: i64, f: u32, g: i64) -> bool
    ensures { result ≡ spec.is_more (property p) e d f g }
{
    if f == 2 {
        return false;
    }
    if e == 2 {
        return true;
    }
    if property::better(p, 1, 0) {
        d < g
    } else {
        g < d
    }
}

// Of `n` vertices the lowest that loses most, or `n`.
fn find_most(p: u32, n: usize, effects: &[u32], moves: &[i64]) -> usize
    requires { (n ≤ length effects.now) × (n ≤ length moves.now) }
    ensures { (result ≡ spec.most (property p) n (shown_of effects.now moves.now)) × (result ≤ n) }
{
    let mut most = n;
    for t in 0..n {
        let e = effects[t];
        let d = moves[t];
        if is_loser(p, e, d) {
            if most == n {
                most = t;
            } else {
                let f = effects[most];
                let g = moves[most];
                if loses_more(p, e, d, f, g) {
                    most = t;
                }
            }
        }
    }
    most
}

// A digest of the effects and moves of `n` vertices, of a property.
pub fn digest_preview(
    n: u32,
    property: u32,
    effects: &[u32],
    moves: &[i64],
) -> Result<Digest, Refusal>
    ensures { digesting result ≡ spec.digest_call n property (shown_of effects.now moves.now) }
{
    judge_digest(n, property, effects.len(), moves.len())?;
    let size = n as usize;
    Ok(Digest {
        gained: count_effect(size, 1, effects),
        lost: count_effect(size, 2, effects),
        better: count_moved(property, size, true, effects, moves),
        worse: count_moved(property, size, false, effects, moves),
        most: find_most(property, size, effects, moves) as u32,
    })
}
