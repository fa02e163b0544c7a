// The stars of a complex, and the complex of stars.
ghost use Rattle.std.specs.Prelude.{◌≡◌, ◌<◌, ◌≤◌, ◌-◌, ◌++◌, ◌∷◌, [], IfOk, OnOk, nat_le};
ghost use Rattle.std.specs.List.{list_all};
ghost use Rattle.complex_core.specs.Labels.{face_cmp};
ghost use Rattle.complex_core.specs.Rising.{rising};
ghost use Rattle.complex_core.specs.ComplexFaults.{CanMake, first_size};
ghost use Rattle.stars.specs.StarViews.{shown};
ghost use Rattle.stars.specs.Building.{stars_of, with_rows, CanAdd, begins, first_rows};

use crate::star::Star;
use complex_core::{Complex, ComplexFault, Face};
use std::alloc::{AllocError, Global};

// Whether no label is above a number.
pub(crate) fn is_up_to(face: &Face, most: u16) -> bool
    ensures { result ≡ list_all (λ x. nat_le x most) face.now }
{
    face.labels().iter().all(|label| *label <= most)
}

// Whether no label of some faces is above a number.
pub(crate) fn are_up_to(faces: &[Face], most: u16) -> bool
    ensures { result ≡ list_all (λ f. list_all (λ x. nat_le x most) f) faces.now }
{
    faces.iter().all(|face| is_up_to(face, most))
}

// The stars of the places from 1 on, without facets.
pub(crate) fn empty_stars(alloc: Global, dim: u32, places: u16) -> Result<Vec<Star>, AllocError>
    requires { dim ≤ 6 }
    ensures { IfOk result (λ v. shown v.items ≡ stars_of dim [] 0 places) }
{
    let mut stars = Vec::new(alloc);
    for place in 0..places {
        let star = Star::empty(alloc, place + 1, dim);
        stars.push(star)?;
    }
    Ok(stars)
}

// Puts a facet behind the rows of the stars of its labels.
pub(crate) fn add_facet(stars: &mut Vec<Star>, facet: &Face) -> Result<(), AllocError>
    requires { CanAdd (shown stars.old.items) facet.now }
    ensures { OnOk result (shown stars.new.items ≡ with_rows facet.now facet.now (shown stars.old.items)) }
{
    for label in facet.labels().as_slice() {
        stars[*label as usize - 1].push(facet)?;
    }
    Ok(())
}

// Whether a row begins with this label.
fn is_begun_by(row: &Face, label: u16) -> bool
    ensures { result ≡ begins row.now label }
{
    !row.is_empty() && row.label(0) == label
}

// Adds the rows that begin with the star's vertex: over all stars these are each facet once, in order.
pub(crate) fn add_first_rows(facets: &mut Vec<Face>, star: &Star) -> Result<(), AllocError>
    ensures { OnOk result (facets.new.items ≡ facets.old.items ++ first_rows star.now.star) }
{
    let vertex = star.vertex();
    for row in star.rows() {
        if is_begun_by(row, vertex) {
            facets.push(*row)?;
        }
    }
    Ok(())
}

// The complex of these facets, which are some, and of one size.
pub(crate) fn complex_of(alloc: Global, facets: &[Face]) -> Result<Complex, AllocError>
    requires { CanMake facets.now }
    ensures facets { IfOk result (λ k. k.facets ≡ rising face_cmp facets.now) }
    ensures dim { IfOk result (λ k. k.dim ≡ first_size facets.now - 1) }
{
    match Complex::from_facets(alloc, facets) {
        Ok(complex) => Ok(complex),
        Err(ComplexFault::Memory) => Err(AllocError),
        Err(ComplexFault::Empty) => unreachable!(),
        Err(ComplexFault::Limit(_)) => unreachable!(),
        Err(ComplexFault::Mixed(_)) => unreachable!(),
    }
}
