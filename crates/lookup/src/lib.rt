// Row look-up: one landmark row, shown as a part of the list that it belongs to.
#![tactic(auto)]

ghost use Rattle.std.specs.Prelude.{◌≡◌};
ghost use Rattle.graph.specs.Refusal.{replied};
ghost use Rattle.graph.specs.Code.{told};
ghost use Rattle.network.specs.Lookup.{index_of, lookup_row, lookup_number};
ghost use Rattle.calls.specs.Code.{row_lists};
ghost use Rattle.lookup.specs.Code.{Shows};

use graph::{Refusal, rules};

// Where `v` stands among the vertices; past them where it does not.
pub fn index_of(v: u32, vertices: &[u32]) -> usize
    ensures { result ≡ index_of v vertices.now }
{
    for (i, &vertex) in vertices.iter().enumerate() {
        if v == vertex {
            return i;
        }
    }
    vertices.len()
}

// The number that a look-up is refused with.
pub fn row_number(
    n: u32,
    landmarks: &[u32],
    forward: &[u32],
    backward: &[u32],
    side: u32,
    landmark: u32,
    property: u32,
) -> Result<(), Refusal>
    ensures { replied (told result) tt ≡ lookup_number n landmarks.now (row_lists forward.now backward.now) side landmark property }
{
    rules::judge_size(n)?;
    calls::judge_rows(n, landmarks, forward, backward)?;
    calls::judge_landmarks(n, landmarks)?;
    if !calls::is_in(landmark, landmarks, 0) {
        return Err(Refusal::Landmarks);
    }
    rules::refuse_if(
        !calls::is_property(property) | (side > 1),
        Refusal::Property,
    )
}

// The row of a side (0 forward, 1 backward), a landmark and a property; a refused look-up shows the empty part.
pub fn row<'a>(
    n: u32,
    landmarks: &[u32],
    forward: &'a [u32],
    backward: &'a [u32],
    side: u32,
    landmark: u32,
    property: u32,
) -> &'a [u32]
    ensures words { result.now ≡ lookup_row n landmarks.now (row_lists forward.now backward.now) side landmark property }
    ensures part { Shows n landmarks.now (row_lists forward.now backward.now) side landmark property forward.entry.ref_ptr backward.entry.ref_ptr result.ref_ptr }
{
    let number = row_number(n, landmarks, forward, backward, side, landmark, property);
    let Ok(()) = number else {
        return &forward[0..0];
    };
    let start = calls::row_start(property, n as usize, index_of(landmark, landmarks));
    let end = start + (n as usize);
    if side == 0 {
        return &forward[start..end];
    }
    &backward[start..end]
}
