// Bistellar flips: which are legal, and what they make.
ghost use Rattle.std.specs.Prelude.{◌≡◌, ◌↔◌, IsOk, ◌≤◌, ◌<◌, ◌+◌, ◌-◌, length, Ok, OnOk, OnErr, IfErr};
ghost use Rattle.std.specs.List.{list_any};
ghost use Rattle.std.specs.List.Sorted.{IsStrictlySortedBy};
ghost use Rattle.complex_core.specs.Labels.{has, face_cmp, IsFace};
ghost use Rattle.complex_core.specs.Complexes.{ComplexView};
ghost use Rattle.flip_rules.specs.Flips.{has_shape, link_fault, broken_rule, broken_rule_near, IsNear, flipped, FlipRefused, LeadsBack, CanPut, Legal, OfFaces};

use crate::few_faces::FewFaces;
use crate::link::{are_sides, have_sides, is_held};
use complex_core::{Complex, Face};

/// A bistellar flip: it takes out the facets that contain A, which are A with B less one label of
/// B, and puts in B with A less one label of A.
///
/// A and B have d + 2 labels together, in a complex of dimension d. These are Pachner's moves, as
/// Björner and Lutz use them in "Simplicial manifolds, bistellar flips and a 16-vertex
/// triangulation of the Poincaré homology 3-sphere" (2000).
#[derive(Clone, Copy, PartialEq, Eq, PartialOrd, Ord, Hash, Default)]
pub struct Flip {
    /// The face that is taken out. Its link is the boundary of B.
    pub a: Face,
    /// The face that comes in. Before a legal flip it is no face.
    pub b: Face,
}

/// The first rule that a flip breaks, in the order of the variants.
#[derive(Clone, Copy, Debug, PartialEq, Eq)]
pub enum Illegal {
    /// A or B is empty, they share a label, or their sizes don't add up to d + 2.
    Shape,
    /// No facet contains A.
    NotAFace,
    /// The facets that contain A aren't exactly A with B less one label of B, one for each label of
    /// B.
    LinkDiffers,
    /// Some facet contains B.
    BIsFace,
}

/// Why a flip isn't made. The complex is then as it was.
#[derive(Clone, Copy, Debug, PartialEq, Eq)]
pub enum FlipFault {
    /// The flip breaks this rule, and none before it.
    Illegal(Illegal),
    /// The facets after the flip found no memory.
    Memory,
}

// Whether the sets share a label.
fn shares(first: &Face, second: &Face) -> bool
    ensures { result ≡ list_any (λ x. has second.now x) first.now }
{
    first.labels().iter().any(|label| second.contains(*label))
}

// Whether A and B have the labels of a flip in this dimension.
fn is_shape(dim: u32, flip: &Flip) -> bool
    ensures shape { result ≡ has_shape dim flip.now.a flip.now.b }
    ensures first { IsFace flip.now.a }
    ensures second { IsFace flip.now.b }
{
    let first = flip.a.len();
    let second = flip.b.len();
    first != 0 && second != 0 && !shares(&flip.a, &flip.b) && first + second == dim as usize + 2
}

// The first rule that the facets near A break: some contain A, and these are the join of A with the boundary of B.
fn check_link(near_a: &[Face], first: &Face, second: &Face) -> Result<(), Illegal>
    requires few { length first.now + length second.now ≤ 8 }
    requires some { 0 < length second.now }
    requires rising { IsStrictlySortedBy face_cmp near_a.now }
    ensures { result ≡ link_fault near_a.now first.now second.now }
{
    let sides = FewFaces::join_boundary(first, second);
    // Facets of the join that are all there contain A, so that A itself needs no pass over the facets.
    if have_sides(near_a, sides.as_slice()) {
        if are_sides(near_a, first, sides.as_slice()) {
            Ok(())
        } else {
            Err(Illegal::LinkDiffers)
        }
    } else if is_held(near_a, first) {
        Err(Illegal::LinkDiffers)
    } else {
        Err(Illegal::NotAFace)
    }
}

// The first rule that the flip breaks, by the facets near A and near B.
fn first_broken(dim: u32, near_a: &[Face], near_b: &[Face], flip: &Flip) -> Result<(), Illegal>
    requires low { dim ≤ 6 }
    requires rising { IsStrictlySortedBy face_cmp near_a.now }
    ensures near { result ≡ broken_rule_near dim near_a.now near_b.now flip.now.a flip.now.b }
    ensures first { IsFace flip.now.a }
    ensures second { IsFace flip.now.b }
{
    if !is_shape(dim, flip) {
        return Err(Illegal::Shape);
    }
    check_link(near_a, &flip.a, &flip.b)?;
    if is_held(near_b, &flip.b) {
        return Err(Illegal::BIsFace);
    }
    Ok(())
}

/// Tells the first rule that a flip breaks, from the facets near A and near B. It takes no memory.
///
/// `near_a` is a rising run of facets that has all facets of a complex that contain A, and `near_b`
/// one that has all those that contain B. Other facets in them change nothing. The answer is that
/// of [`check`] on every such complex of this dimension.
pub fn check_near(dim: u32, near_a: &[Face], near_b: &[Face], flip: &Flip) -> Result<(), Illegal>
    requires low { dim ≤ 6 }
    requires rising { IsStrictlySortedBy face_cmp near_a.now }
    ensures near { result ≡ broken_rule_near dim near_a.now near_b.now flip.now.a flip.now.b }

    // On every complex with these facets near A and B it is the first rule that the flip breaks.
    ensures broken_rule { (k : ComplexView) → IsNear k dim near_a.now near_b.now flip.now.a flip.now.b →
        result ≡ broken_rule k flip.now.a flip.now.b }

    // What a legal flip puts in are facets of that dimension.
    ensures facets { OnOk result (CanPut dim flip.now.a flip.now.b) }

    ensures first { IsFace flip.now.a }
    ensures second { IsFace flip.now.b }
{
    first_broken(dim, near_a, near_b, flip)
}

/// Tells the first rule that a flip breaks on a complex. A flip is legal where it breaks none. It
/// takes no memory.
pub fn check(complex: &Complex, flip: &Flip) -> Result<(), Illegal>
    ensures broken_rule { result ≡ broken_rule complex.now flip.now.a flip.now.b }

    // The same rule by rule: a legal flip is exactly one that breaks none.
    ensures legal { IsOk result ↔ Legal complex.now flip.now.a flip.now.b }

    // What a legal flip puts in are facets of that dimension.
    ensures facets { OnOk result (CanPut complex.now.dim flip.now.a flip.now.b) }

    ensures faces { OfFaces flip.now }
{
    let near_a = complex.around(&flip.a);
    let near_b = complex.around(&flip.b);
    check_near(complex.dim(), near_a, near_b, flip)
}

/// The flip that leads back, (B, A). After a legal flip it is legal, and makes the complex that was
/// before.
pub fn inverse(flip: &Flip) -> Flip
    ensures a { result.a ≡ flip.now.b }
    ensures b { result.b ≡ flip.now.a }
    ensures undoes { LeadsBack flip.now.a flip.now.b result.a result.b }
{
    Flip {
        a: flip.b,
        b: flip.a,
    }
}

/// The index of a flip: the number of labels of B less 1, from 0. A legal flip of index i changes
/// the number of facets by d - 2i, in dimension d.
pub fn index(flip: &Flip) -> u32
    requires { 0 < length flip.now.b }
    ensures { result ≡ length flip.now.b - 1 }
{
    flip.b.len() as u32 - 1
}

/// Makes a flip on a complex, or leaves the complex as it is: exactly where the flip breaks a rule,
/// or for want of memory.
pub fn apply(complex: &mut Complex, flip: &Flip) -> Result<(), FlipFault>
    ensures legal { OnOk result (broken_rule complex.old flip.now.a flip.now.b ≡ Ok tt) }
    ensures ok { OnOk result (complex.new ≡ flipped complex.old flip.now.a flip.now.b) }
    ensures err { OnErr result (complex.new ≡ complex.old) }
    ensures broken_rule { IfErr result (FlipRefused (broken_rule complex.old flip.now.a flip.now.b)) }

    // A flip that breaks a rule is always told which, also where memory is short.
    ensures told { (e : Illegal) → broken_rule complex.old flip.now.a flip.now.b ≡ Err e →
        result ≡ Err (FlipFault.Illegal e) }

    ensures faces { OfFaces flip.now }
{
    if let Err(illegal) = check(complex, flip) {
        return Err(FlipFault::Illegal(illegal));
    }
    let out = FewFaces::join_boundary(&flip.a, &flip.b);
    let more = FewFaces::join_boundary(&flip.b, &flip.a);
    match complex.exchange(out.as_slice(), more.as_slice()) {
        Ok(()) => Ok(()),
        Err(_) => Err(FlipFault::Memory),
    }
}
