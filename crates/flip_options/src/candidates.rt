// The table of candidates, best first.
ghost use Rattle.std.specs.Prelude.{◌≡◌, OnOk, slice_get};
ghost use Rattle.complex_core.specs.Complexes.{ComplexView};
ghost use Rattle.stars.specs.StarViews.{IsStarListOf};
ghost use Rattle.flip_options.specs.Candidates.{Refreshed, flips_of};

use crate::partner::partner;
use complex_core::Face;
use flip_rules::Flip;
use stars::StarMap;
use std::alloc::AllocError;
use std::collections::BTreeMap;

/// The candidates, best first: from the number of labels of A, and A, to B.
pub(crate) type Candidates = BTreeMap<(usize, Face), Face>;

/// Looks at a face again: puts its flip in, or takes it out.
pub(crate) fn refresh(
    candidates: &mut Candidates,
    stars: &StarMap,
    face: &Face,
) -> Result<(), AllocError>
    requires { (k : ComplexView) × IsStarListOf k stars.now }
    ensures { OnOk result (Refreshed stars.now candidates.old candidates.new (λ k a. a ≡ face.now)) }
{
    let key = (face.len(), *face);
    match partner(stars, face) {
        Some(other) => {
            candidates.insert(key, other)?;
        }
        None => {
            candidates.remove(&key);
        }
    }
    Ok(())
}

/// The first flip of the table, if there is one.
pub(crate) fn first_flip(candidates: &Candidates) -> Option<Flip>
    ensures { result ≡ slice_get (flips_of candidates.now) 0 }
{
    match candidates.first_key_value() {
        Some((key, other)) => Some(Flip {
            a: key.1,
            b: *other,
        }),
        None => None,
    }
}
