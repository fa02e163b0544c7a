// The flip that reduces, at one A.
ghost use Rattle.complex_core.specs.Complexes.{ComplexView};
ghost use Rattle.stars.specs.StarViews.{IsStarListOf};
ghost use Rattle.flip_options.specs.Candidates.{Decides};

use crate::smallest_star::{are_over, labels_over, near};
use complex_core::Face;
use flip_rules::{Flip, check_near};
use stars::StarMap;

/// The B with which this A makes a legal flip of an index above d/2. `None` exactly where there is
/// none. It takes no memory.
pub(crate) fn partner(stars: &StarMap, face: &Face) -> Option<Face>
    requires { (k : ComplexView) × IsStarListOf k stars.now }
    ensures { (k : ComplexView) → IsStarListOf k stars.now → Decides k face.now result }
{
    let dim = stars.dim() as usize;
    if face.is_empty() || 2 * face.len() >= dim + 2 {
        return None;
    }
    let near_a = near(stars, face);
    // A flip takes out a facet for each label of B. Nearly all faces have more, or fewer.
    if !are_over(near_a, face, dim + 2 - face.len()) {
        return None;
    }
    let Some(all) = labels_over(near_a, face, dim + 2) else {
        return None;
    };
    if all.len() != dim + 2 {
        return None;
    }
    let other = all.less(face);
    let near_b = near(stars, &other);
    let flip = Flip { a: *face, b: other };
    match check_near(stars.dim(), near_a, near_b, &flip) {
        Ok(()) => Some(other),
        Err(_) => None,
    }
}
