//! What a try proposes.

ghost use Rattle.std.specs.Prelude.{◌≡◌, ◌≤◌, ◌<◌, ◌+◌, ◌*◌, ◌-◌, length, slice_get, None, IfSome, ◌↔◌};
ghost use Rattle.std.specs.List.{AllByRecursion};
ghost use Rattle.std.specs.Option.{ForSome};
ghost use Rattle.anneal_plan.specs.Faces.{rows_apart};
ghost use Rattle.anneal_plan.specs.Fits.{FitsStar, HasNoCandidate, OnlyBCanBreak};
ghost use Rattle.anneal_plan.specs.Turns.{TurnsStart, TurnsGoOn, TurnsStop, TurnsEnd, TurnsSplit, TurnsAreFew, TurnsHaveVertex};
ghost use Rattle.anneal_plan.specs.Proposals.{allowed_of, candidates, chosen, entering, inner, first_chosen, fresh_label, falling, indices, proposal_of};

use crate::grow::flips_of;
use crate::listed::{find_list, knows_one, listed_flip};
use crate::plan::Phase;
use complex_core::Face;
use flip_rules::Flip;
use stars::Star;
use std::alloc::Global;

/// The greatest change of the number of facets that a try of this phase may commit.
pub fn allowed(dim: u32, phase: Phase) -> i64
    requires low { 1 ≤ dim }
    requires high { dim ≤ 6 }
    ensures { result ≡ allowed_of dim phase }
{
    match phase {
        Phase::Heat => i64::from(dim),
        Phase::Relax => i64::from(dim % 2),
        Phase::Reduce => -1,
    }
}

// The label that a flip of index 0 brings in.
fn fresh_label(free: &[u16], word: u32, turn: u32) -> Option<u16>
    requires { turn ≤ 3 }
    ensures { result ≡ fresh_label free.now word turn }
{
    let count = free.len();
    if count == 0 {
        return None;
    }
    free.get((word as usize % count + turn as usize) % count)
        .copied()
}

// How many facets don't have a label.
fn count_apart(rows: &[Face], label: u16) -> usize
    ensures { result ≡ length (rows_apart rows.now label) }
{
    rows.iter().filter(|row| !row.contains(label)).count()
}

// The facet at this place, from 0, among those that don't have a label.
fn nth_apart(rows: &[Face], label: u16, place: usize) -> Option<Face>
    ensures { result ≡ slice_get (rows_apart rows.now label) place }
{
    let mut left = place;
    for row in rows {
        if !row.contains(label) {
            if left == 0 {
                return Some(*row);
            }
            left -= 1;
        }
    }
    None
}

// The candidate of index 0 that a word chooses.
fn entering_flip(star: &Star, fresh: Option<u16>, word: u32) -> Option<Flip>
    requires { ForSome fresh (λ x. 0 < x) }
    ensures { result ≡ chosen (entering star.now.star fresh) word }
{
    let label = fresh?;
    let count = count_apart(star.rows(), label);
    if count == 0 {
        return None;
    }
    let a = nth_apart(star.rows(), label, word as usize % count)?;
    let b = Face::new().with(label)?;
    Some(Flip { a, b })
}

// The candidate of an index from 1 that a word chooses, found by a walk over the star.
fn searched_flip(star: &Star, index: u32, word: u32) -> Option<Flip>
    requires low { 1 ≤ index }
    requires high { index ≤ star.now.star.dim }
    ensures { result ≡ chosen (inner star.now.star index) word }
{
    let others = (star.dim() - index) as usize;
    let first = flips_of(star, others, 0);
    let count = first.count();
    if count == 0 {
        return None;
    }
    let place = word as usize % count;
    match first.get(place) {
        Some(flip) => Some(flip),
        None => flips_of(star, others, place).get(0),
    }
}

// The candidate of an index from 1 that a word chooses.
fn inner_flip(star: &Star, index: u32, word: u32) -> Option<Flip>
    requires low { 1 ≤ index }
    requires high { index ≤ star.now.star.dim }
    ensures { result ≡ chosen (inner star.now.star index) word }
{
    match star.candidates(index) {
        Some(faces) => listed_flip(star, faces, word),
        None => searched_flip(star, index, word),
    }
}

// The candidate of an index that a word chooses.
fn chosen_flip(star: &Star, index: u32, fresh: Option<u16>, word: u32) -> Option<Flip>
    requires high { index ≤ star.now.star.dim }
    requires label { ForSome fresh (λ x. 0 < x) }
    ensures { result ≡ chosen (candidates star.now.star fresh index) word }
{
    if index == 0 {
        entering_flip(star, fresh, word)
    } else {
        inner_flip(star, index, word)
    }
}

// So many indices, falling from the first.
#[derive(Clone, Copy)]
struct Indices {
    first: u32,
    count: u32,
}

// The indices of a phase, in the order in which they are tried.
fn indices_of(dim: u32, phase: Phase, word: u32) -> Indices
    requires low { 1 ≤ dim }
    requires high { dim ≤ 6 }
    ensures indices { falling result.first result.count ≡ indices dim phase word }
    ensures first { result.first ≤ dim }
    ensures last { result.count ≤ result.first + 1 }
{
    match phase {
        Phase::Heat => Indices {
            first: word % dim.div_ceil(2),
            count: 1,
        },
        Phase::Relax => Indices {
            first: dim.div_ceil(2),
            count: 1 + dim % 2,
        },
        Phase::Reduce => Indices {
            first: dim,
            count: dim - dim / 2,
        },
    }
}

// The candidate that a word chooses at the first of some indices that has one.
fn first_flip(star: &Star, indices: Indices, fresh: Option<u16>, word: u32) -> Option<Flip>
    requires first { indices.first ≤ star.now.star.dim }
    requires last { indices.count ≤ indices.first + 1 }
    requires label { ForSome fresh (λ x. 0 < x) }
    ensures { result ≡ first_chosen (candidates star.now.star fresh) word (falling indices.first indices.count) }
{
    for tried in 0..indices.count {
        if let Some(flip) = chosen_flip(star, indices.first - tried, fresh, word) {
            return Some(flip);
        }
    }
    None
}

/// Finds the candidates from which [`proposal`] chooses, and lets the star keep them, so that it
/// needn't walk over the star again. The star stays the same, also where memory is short.
pub fn find_candidates(alloc: Global, star: &mut Star, phase: Phase, words: &[u32; 8])
    requires dim { 1 ≤ star.old.star.dim }
    ensures { star.new ≡ star.old }
{
    let indices = indices_of(star.dim(), phase, words[1]);
    for tried in 0..indices.count {
        let index = indices.first - tried;
        find_list(alloc, star, index);
        if knows_one(star, index) {
            return;
        }
    }
}

/// Proposes the flip of a turn of a try, from the star of the try's vertex as the flips before have
/// left it. It takes no memory.
///
/// The phase has some indices, and the first one with a candidate decides. A candidate of an index
/// from 1 is a flip (A, B) whose A has the vertex and whose facets are those of the star over A. At
/// index 0 it brings in one of the free labels. The candidates stand in rising order of A, and a
/// word chooses one of them: word 1 chooses the index while the phase is `Heat`, words 2 to 5 are
/// those of the turns, and word 6 chooses the free label. `None` exactly where there is no candidate.
///
/// A proposal is legal exactly where B is no face.
pub fn proposal(
    star: &Star,
    phase: Phase,
    words: &[u32; 8],
    turn: u32,
    free: &[u16],
) -> Option<Flip>
    requires dim { 1 ≤ star.now.star.dim }
    requires turn { turn ≤ 3 }
    requires free { AllByRecursion (λ x. 0 < x) free.now }
    ensures proposal { result ≡ proposal_of star.now.star phase words.now turn free.now }
    ensures fits { IfSome result (FitsStar star.now.star free.now) }
    ensures none { (result ≡ None) ↔ HasNoCandidate star.now.star phase words.now turn free.now }
{
    let fresh = fresh_label(free, words[6], turn);
    let word = words[2 + turn as usize];
    let indices = indices_of(star.dim(), phase, words[1]);
    first_flip(star, indices, fresh, word)
}

/// A law: on a complex with this star a proposal breaks no rule of flips, but that B may be a face.
pub fn only_b_can_break()
    ensures { OnlyBCanBreak }
{}

/// Laws of the flips of a try, which are the proposals of its turns one after another.
pub fn turns_follow()
    ensures start { TurnsStart }
    ensures on { TurnsGoOn }
    ensures stop { TurnsStop }
    ensures end { TurnsEnd }
    ensures split { TurnsSplit }
    ensures few { TurnsAreFew }
    ensures vertex { TurnsHaveVertex }
{}
