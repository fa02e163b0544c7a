// A flip that is judged and made on the stars of its own labels.
ghost use Rattle.std.specs.Prelude.{◌≡◌, true, [], Ok, Err, OnOk, OnErr, IfErr, MatchOption, IsTrue, ◌↔◌, nat_eq};
ghost use Rattle.std.specs.List.{list_all, list_any};
ghost use Rattle.complex_core.specs.Labels.{IsFace, IsRising, has, holds, union};
ghost use Rattle.complex_core.specs.Complexes.{ComplexView};
ghost use Rattle.flip_rules.specs.Flips.{broken_rule, flipped, join_boundary, CanPut, FlipRefused, OfFaces};
ghost use Rattle.flip_rules.specs.declared.flip.Illegal.{Illegal};
ghost use Rattle.stars.specs.StarViews.{vertices, shown, rooms, counts, EachAtMost, IsStarOf, AreStarsOf, HasLabels};
ghost use Rattle.stars.specs.Changes.{HasRoom};
ghost use Rattle.stars.specs.FlipsHere.{stars_flipped};

use crate::rows::{change_stars, make_room, place_of};
use crate::star::Star;
use complex_core::Face;
use flip_rules::{FewFaces, Flip, FlipFault, Illegal, check_near};

// Some label of a set, if it has one.
fn some_label(set: &Face) -> Option<u16>
    ensures label { MatchOption result (set.now ≡ []) (λ x. has set.now x ≡ true) }
    ensures face { IsFace set.now }
{
    set.labels().first().copied()
}

// The star of a vertex.
fn star_of(near: &[Star], vertex: u16) -> &Star
    requires rising { IsRising (vertices (shown near.now)) }
    requires held { has (vertices (shown near.now)) vertex ≡ true }
    ensures vertex { result.now.star.vertex ≡ vertex }
    ensures of { (k : ComplexView) → AreStarsOf k (shown near.now) → IsStarOf k result.now.star }
{
    &near[place_of(near, vertex)]
}

/// Whether the star of a vertex is among some stars.
pub fn has_star(near: &[Star], vertex: u16) -> bool
    ensures { result ≡ list_any (λ s. nat_eq s.star.vertex vertex) near.now }
{
    near.iter().any(|star| star.vertex() == vertex)
}

// Whether the stars of all labels of a set are there.
fn has_stars(near: &[Star], face: &Face) -> bool
    ensures { result ≡ list_all (λ x. list_any (λ s. nat_eq s.star.vertex x) near.now) face.now }
{
    face.labels().iter().all(|label| has_star(near, *label))
}

/// Whether the stars of all labels of a flip are among some stars.
pub fn has_labels(near: &[Star], flip: &Flip) -> bool
    ensures { IsTrue result ↔ HasLabels (shown near.now) flip.now }
{
    has_stars(near, &flip.a) && has_stars(near, &flip.b)
}

/// Tells the first rule that a flip breaks, from the stars of its own labels. It takes no memory.
///
/// `near` holds stars of one complex, rising in their vertices, and the star of each label of A and B
/// is among them. The answer is that of `flip_rules::check` on every complex with these stars.
pub fn local_check(near: &[Star], flip: &Flip) -> Result<(), Illegal>
    requires stars { (k : ComplexView) × AreStarsOf k (shown near.now) }
    requires held { HasLabels (shown near.now) flip.now }
    ensures broken_rule { (k : ComplexView) → AreStarsOf k (shown near.now) → result ≡ broken_rule k flip.now.a flip.now.b }

    // What a legal flip puts in are facets of that dimension.
    ensures facets { (k : ComplexView) → AreStarsOf k (shown near.now) → OnOk result (CanPut k.dim flip.now.a flip.now.b) }

    ensures faces { OfFaces flip.now }
{
    // A side without labels has no star to look at, and breaks the first rule.
    let first = some_label(&flip.a);
    let second = some_label(&flip.b);
    let Some(first) = first else {
        return Err(Illegal::Shape);
    };
    let Some(second) = second else {
        return Err(Illegal::Shape);
    };
    let near_a = star_of(near, first);
    let near_b = star_of(near, second);
    check_near(near_a.dim(), near_a.rows(), near_b.rows(), flip)
}

// Makes a legal flip, whose labels these are, on their stars, which have room. It takes no memory.
fn change_by(near: &mut [Star], a: &Face, b: &Face, labels: &Face)
    requires stars { (k : ComplexView) × AreStarsOf k (shown near.old) × (broken_rule k a.now b.now ≡ Ok tt) × CanPut k.dim a.now b.now }
    requires held { holds (vertices (shown near.old)) labels.now ≡ true }
    requires labels { labels.now ≡ union a.now b.now }
    requires room { HasRoom near.old labels.now (join_boundary a.now b.now) (join_boundary b.now a.now) }
    ensures stars { shown near.new ≡ stars_flipped (shown near.old) a.now b.now }
    ensures rooms { rooms near.new ≡ rooms near.old }
{
    let out = FewFaces::join_boundary(a, b);
    let more = FewFaces::join_boundary(b, a);
    change_stars(
        near,
        &labels.labels(),
        labels,
        out.as_slice(),
        more.as_slice(),
    );
}

/// Makes a flip on the stars of its own labels, or leaves all stars as they are: exactly where the flip
/// breaks a rule, or for want of memory, which is taken before the first change.
///
/// The condition is that of [`local_check`]. On every complex with these stars they become those after
/// the flip. The stars of other labels stay.
pub fn flip_here(near: &mut [Star], flip: &Flip) -> Result<(), FlipFault>
    requires stars { (k : ComplexView) × AreStarsOf k (shown near.old) }
    requires held { HasLabels (shown near.old) flip.now }
    ensures legal { (k : ComplexView) → AreStarsOf k (shown near.old) → OnOk result (broken_rule k flip.now.a flip.now.b ≡ Ok tt) }
    ensures ok { OnOk result (shown near.new ≡ stars_flipped (shown near.old) flip.now.a flip.now.b) }
    ensures stars { (k : ComplexView) → AreStarsOf k (shown near.old) →
        OnOk result (AreStarsOf (flipped k flip.now.a flip.now.b) (shown near.new)) }
    ensures err { OnErr result (shown near.new ≡ shown near.old) }

    // No star loses room.
    ensures rooms { EachAtMost (rooms near.old) (rooms near.new) }

    ensures broken_rule { (k : ComplexView) → AreStarsOf k (shown near.old) →
        IfErr result (FlipRefused (broken_rule k flip.now.a flip.now.b)) }

    // A flip that breaks a rule is always told which, also where memory is short.
    ensures told { (k : ComplexView) (e : Illegal) → AreStarsOf k (shown near.old) →
        broken_rule k flip.now.a flip.now.b ≡ Err e → result ≡ Err (FlipFault.Illegal e) }

    ensures faces { OfFaces flip.now }
{
    if let Err(illegal) = local_check(near, flip) {
        return Err(FlipFault::Illegal(illegal));
    }
    let Some(labels) = flip.a.union(&flip.b) else {
        unreachable!()
    };
    match make_room(near, &labels.labels(), flip.a.len()) {
        Ok(()) => {
            change_by(near, &flip.a, &flip.b, &labels);
            Ok(())
        }
        Err(_) => Err(FlipFault::Memory),
    }
}

/// Takes a flip back: makes its inverse on the stars of its own labels, each of which has room for what it
/// becomes. It takes no memory.
///
/// The stars are those of one complex, on which the inverse is legal. After a [`flip_here`] with the flip
/// they are as before it, by [`undo_law`](crate::undo_law).
pub fn undo_here(near: &mut [Star], flip: &Flip)
    requires stars { (k : ComplexView) × AreStarsOf k (shown near.old) × (broken_rule k flip.now.b flip.now.a ≡ Ok tt) }
    requires held { HasLabels (shown near.old) flip.now }
    requires room { EachAtMost (counts (stars_flipped (shown near.old) flip.now.b flip.now.a)) (rooms near.old) }
    ensures stars { shown near.new ≡ stars_flipped (shown near.old) flip.now.b flip.now.a }
    ensures rooms { EachAtMost (rooms near.old) (rooms near.new) }
{
    // They are labels of faces.
    let _first = flip.a.len();
    let _second = flip.b.len();
    let Some(labels) = flip.b.union(&flip.a) else {
        unreachable!()
    };
    change_by(near, &flip.b, &flip.a, &labels);
}
