// The least face whose link lacks a fact of a sphere.
ghost use Rattle.std.specs.Prelude.{◌≡◌, ◌↔◌, ◌≤◌, ◌<◌, ◌-◌, map, IfOk, IfSome, IsNone, MatchOption};
ghost use lib.IntN.{pos, ◌+ℤ◌};
ghost use Rattle.complex_core.specs.Labels.{face_cmp};
ghost use Rattle.complex_core.specs.Rising.{rising};
ghost use Rattle.complex_core.specs.Complexes.{ComplexView};
ghost use Rattle.complex_core.specs.ComplexFaults.{CanMake, first_size};
ghost use Rattle.complex_core.specs.Links.{less, link};
ghost use Rattle.face_counts.specs.Eulers.{power};
ghost use Rattle.link_check.specs.BadLinks.{IsGoodLink, Lacks, NoneIsBad, IsLeastBad};
ghost use Rattle.link_check.specs.Sizes.{NoneOfSize, IsFirstOfSize, AreFlagsAt};

use crate::flags::{Flag, all_flags, faces_of, flags_at};
use complex_core::{Complex, ComplexFault, Face};
use face_counts::euler;
use pseudo_test::{Apart, strong};
use std::alloc::{AllocError, Global};

/// What the link of a face lacks.
#[derive(Clone, Copy, PartialEq, Eq)]
pub enum LinkFact {
    /// The Euler characteristic of the link, which isn't 1 + (-1)^m for its dimension m.
    Euler(i64),
    /// No chain of facets of the link joins these two.
    Split(Apart),
}

/// A face, and what its link lacks.
#[derive(Clone, Copy, PartialEq, Eq)]
pub struct BadLink {
    pub face: Face,
    pub fact: LinkFact,
}

/// The least bad face: of those with 1 to d labels the first, by the number of labels and then in
/// order, whose link lacks a fact of a sphere. `None` exactly where there is none.
///
/// A link of dimension m has the Euler characteristic 1 + (-1)^m, which is judged first, and from
/// dimension 1 on it is strongly connected. Each link is judged once, and made of its own facets
/// alone.
pub fn bad_link(alloc: Global, complex: &Complex) -> Result<Option<BadLink>, AllocError>
    ensures found { IfOk result (λ r. IfSome r (IsLeastBad complex.now)) }
    ensures none { IfOk result (λ r. IsNone r ↔ NoneIsBad complex.now) }
{
    first_bad(alloc, complex)
}

// The least bad face, or that there is none.
fn first_bad(alloc: Global, complex: &Complex) -> Result<Option<BadLink>, AllocError>
    ensures { IfOk result (λ r. MatchOption r (NoneIsBad complex.now) (IsLeastBad complex.now)) }
{
    for size in 1..complex.dim() as usize + 1 {
        if let Some(bad) = bad_of_size(alloc, complex, size)? {
            return Ok(Some(bad));
        }
    }
    Ok(None)
}

// The first bad face of one size.
fn bad_of_size(alloc: Global, complex: &Complex, size: usize) -> Result<Option<BadLink>, AllocError>
    requires some { 0 < size }
    requires proper { size ≤ complex.now.dim }
    ensures { IfOk result (λ r. MatchOption r (NoneOfSize complex.now size) (IsFirstOfSize complex.now size)) }
{
    let flags = all_flags(alloc, complex, size)?;
    let faces = faces_of(alloc, &flags)?;
    for face in &faces {
        match fact_at(alloc, flags_at(&flags, face), face)? {
            Some(fact) => return Ok(Some(BadLink { face: *face, fact })),
            None => {}
        }
    }
    Ok(None)
}

// What the link of a face lacks, by the flags of the face.
fn fact_at(alloc: Global, near: &[Flag], face: &Face) -> Result<Option<LinkFact>, AllocError>
    requires { (k : ComplexView) × AreFlagsAt k face.now near.now }
    ensures { IfOk result (λ r. (k : ComplexView) → AreFlagsAt k face.now near.now →
        MatchOption r (IsGoodLink (link k face.now)) (Lacks (link k face.now))) }
{
    let link = link_at(alloc, near, face)?;
    link_fact(alloc, &link)
}

// The link of a face, by the flags of the face.
pub(crate) fn link_at(alloc: Global, near: &[Flag], face: &Face) -> Result<Complex, AllocError>
    requires { (k : ComplexView) × AreFlagsAt k face.now near.now }
    ensures { IfOk result (λ l. (k : ComplexView) → AreFlagsAt k face.now near.now → l ≡ link k face.now) }
{
    let facets = all_less(alloc, near, face)?;
    complex_of(alloc, &facets)
}

// The complex of these facets, which are some, and of one size.
fn complex_of(alloc: Global, facets: &[Face]) -> Result<Complex, AllocError>
    requires { CanMake facets.now }
    ensures facets { IfOk result (λ k. k.facets ≡ rising face_cmp facets.now) }
    ensures dim { IfOk result (λ k. k.dim ≡ first_size facets.now - 1) }
{
    match Complex::from_facets(alloc, facets) {
        Ok(complex) => Ok(complex),
        Err(ComplexFault::Memory) => Err(AllocError),
        Err(ComplexFault::Empty) => unreachable!(),
        Err(ComplexFault::Limit(_)) => unreachable!(),
        Err(ComplexFault::Mixed(_)) => unreachable!(),
    }
}

// The facets of the flags, less the face.
fn all_less(alloc: Global, near: &[Flag], face: &Face) -> Result<Vec<Face>, AllocError>
    ensures { IfOk result (λ v. v.items ≡ map (λ s. less s.1 face.now) near.now) }
{
    near.iter().map(|flag| flag.1.less(face)).collect(alloc)
}

// The first fact that a link lacks.
fn link_fact(alloc: Global, link: &Complex) -> Result<Option<LinkFact>, AllocError>
    ensures { IfOk result (λ r. MatchOption r (IsGoodLink link.now) (Lacks link.now)) }
{
    let characteristic = euler(alloc, link)?;
    if characteristic != sphere_euler(link.dim()) {
        return Ok(Some(LinkFact::Euler(characteristic)));
    }
    if link.dim() == 0 {
        return Ok(None);
    }
    match strong(alloc, link)? {
        Some(apart) => Ok(Some(LinkFact::Split(apart))),
        None => Ok(None),
    }
}

// The Euler characteristic of the sphere of this dimension, 1 + (-1)^m.
fn sphere_euler(dim: u32) -> i64
    ensures { result ≡ pos 1 +ℤ power dim }
{
    if dim % 2 == 0 { 2 } else { 0 }
}
