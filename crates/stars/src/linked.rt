//! The facets over a face, as the boundary of a simplex.

ghost use Rattle.std.specs.Prelude.{◌≡◌, ◌≤◌, length};
ghost use Rattle.std.specs.List.Sorted.{IsStrictlySortedBy};
ghost use Rattle.std.specs.Option.{SomeIff};
ghost use Rattle.complex_core.specs.Labels.{face_cmp};
ghost use Rattle.complex_core.specs.Complexes.{over};
ghost use Rattle.complex_core.specs.Maps.{used};
ghost use Rattle.stars.specs.Candidates.{flip_at};

use complex_core::Face;
use flip_rules::{Flip, check_near};

// The labels of the facets that contain a face. `None` exactly where they are more than so many.
fn labels_over(rows: &[Face], face: &Face, most: usize) -> Option<Face>
    requires { most ≤ 8 }
    ensures { SomeIff result (length (used (over rows.now face.now)) ≤ most) (used (over rows.now face.now)) }
{
    let mut labels = Face::new();
    for row in rows {
        if row.holds(face) {
            labels = labels.union(row)?;
            if labels.len() > most {
                return None;
            }
        }
    }
    Some(labels)
}

/// The flip that takes a face out, if the facets over it are those of such a flip.
pub fn flip_at(dim: u32, rows: &[Face], face: &Face) -> Option<Flip>
    requires low { dim ≤ 6 }
    requires rising { IsStrictlySortedBy face_cmp rows.now }
    ensures { result ≡ flip_at dim rows.now face.now }
{
    let labels = labels_over(rows, face, dim as usize + 2)?;
    let flip = Flip {
        a: *face,
        b: labels.less(face),
    };
    check_near(dim, rows, &[], &flip).ok()?;
    Some(flip)
}
