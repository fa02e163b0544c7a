// The flags of facets: each face of one size with each facet that contains it, in order.
ghost use Rattle.std.specs.Prelude.{◌≡◌, ◌++◌, IfOk, OnOk, map};
ghost use Rattle.std.specs.List.Sorted.{IsStrictlySortedBy};
ghost use Rattle.complex_core.specs.Labels.{face_cmp};
ghost use Rattle.complex_core.specs.Rising.{rising};
ghost use Rattle.complex_core.specs.Complexes.{IsComplex};
ghost use Rattle.link_check.specs.Flags.{flag_cmp, flags_of, flags, flags_at};

use complex_core::{Complex, Face};
use std::alloc::{AllocError, Global};

/// A face, and a facet that contains it.
pub type Flag = (Face, Face);

/// The flags of the faces of one size, rising by faces and then by facets. So those of one face are
/// a run, and all its facets stand in it: nothing else is looked at for its link.
pub fn all_flags(alloc: Global, complex: &Complex, size: usize) -> Result<Vec<Flag>, AllocError>
    ensures flags { IfOk result (λ v. v.items ≡ flags size complex.now.facets) }
    ensures rising { IfOk result (λ v. IsStrictlySortedBy flag_cmp v.items) }
    ensures complex { IsComplex complex.now }
{
    let mut all = Vec::new(alloc);
    for facet in complex.facets() {
        add_flags(alloc, &mut all, facet, size)?;
    }
    sort_flags(&mut all);
    Ok(all)
}

// Adds the flags of a facet.
fn add_flags(
    alloc: Global,
    all: &mut Vec<Flag>,
    facet: &Face,
    size: usize,
) -> Result<(), AllocError>
    ensures { OnOk result (all.new.items ≡ all.old.items ++ flags_of size facet.now) }
{
    let faces = facet.subsets(alloc, size)?;
    for face in faces.as_slice() {
        all.push((*face, *facet))?;
    }
    Ok(())
}

// Sorts flags, and keeps each once.
fn sort_flags(flags: &mut Vec<Flag>)
    ensures flags { flags.new.items ≡ rising flag_cmp flags.old.items }
    ensures rising { IsStrictlySortedBy flag_cmp flags.new.items }
{
    flags.sort_unstable();
    flags.dedup();
}

// The run of one face. It is found by two binary searches.
pub(crate) fn flags_at<'a>(flags: &'a [Flag], face: &Face) -> &'a [Flag]
    requires { IsStrictlySortedBy flag_cmp flags.now }
    ensures { result.now ≡ flags_at flags.now face.now }
{
    let start = flags.partition_point(|flag| flag.0.cmp(face).is_lt());
    let rest = &flags[start..];
    let end = rest.partition_point(|flag| flag.0.cmp(face).is_le());
    &rest[..end]
}

// The faces of the flags, rising, each once.
pub(crate) fn faces_of(alloc: Global, flags: &[Flag]) -> Result<Vec<Face>, AllocError>
    ensures { IfOk result (λ v. v.items ≡ rising face_cmp (map (λ s. s.0) flags.now)) }
{
    let mut faces = firsts(alloc, flags)?;
    sort_faces(&mut faces);
    Ok(faces)
}

// The face of each flag.
fn firsts(alloc: Global, flags: &[Flag]) -> Result<Vec<Face>, AllocError>
    ensures { IfOk result (λ v. v.items ≡ map (λ s. s.0) flags.now) }
{
    flags.iter().map(|flag| flag.0).collect(alloc)
}

// Sorts faces, and keeps each once.
fn sort_faces(faces: &mut Vec<Face>)
    ensures { faces.new.items ≡ rising face_cmp faces.old.items }
{
    faces.sort_unstable();
    faces.dedup();
}
