// A few faces in a value that takes no memory, as the facets that a flip takes out or puts in.
ghost use Rattle.std.specs.Prelude.{◌≡◌, ◌≤◌, ◌+◌, ◌∷◌, [], length};
ghost use Rattle.complex_core.specs.Labels.{union, without};
ghost use Rattle.complex_core.specs.Complexes.{over};
ghost use Rattle.flip_rules.specs.Flips.{join_boundary};

use complex_core::Face;
use std::marker::Model;

/// At most eight faces, one after another, which take no memory. Contracts see their list.
///
/// A flip (A, B) takes out the facets of the join of A with the boundary of B, and puts in those of the
/// join of B with the boundary of A.
#[derive(Drop)]
pub struct FewFaces {
    all: [Face; 8],
    count: usize,
}

impl Model for FewFaces {
    ghost use Rattle.std.specs.Prelude.{List, ℕ, take, ◌≤◌};

    ghost Value = { List (List ℕ) };

    ghost view = { λ s. take s.count s.all };

    ghost invariant = { λ s. s.count ≤ 8 };
}

// The first set, and the second less a label.
fn side(first: &Face, second: &Face, label: u16) -> Face
    requires { length first.now + length second.now ≤ 8 }
    ensures { result ≡ union first.now (without second.now label) }
{
    match first.union(&second.without(label)) {
        Some(side) => side,
        None => unreachable!(),
    }
}

impl FewFaces {
    /// The join of the first set with the boundary of the second: their union less one label of the
    /// second, for each of these, in their order.
    pub fn join_boundary(first: &Face, second: &Face) -> FewFaces
        requires { length first.now + length second.now ≤ 8 }
        ensures { result ≡ join_boundary first.now second.now }
    {
        let mut all = [Face::new(); 8];
        let labels = second.labels();
        for (position, label) in labels.iter().enumerate() {
            all[position] = side(first, second, *label);
        }
        FewFaces {
            all,
            count: second.len(),
        }
    }

    /// Those of some faces, at most eight, that contain a label, in their order.
    pub fn holding(sets: &[Face], label: u16) -> FewFaces
        requires { length sets.now ≤ 8 }
        ensures { result ≡ over sets.now (label ∷ []) }
    {
        let mut all = [Face::new(); 8];
        let mut count = 0;
        for set in sets {
            if set.contains(label) {
                all[count] = *set;
                count += 1;
            }
        }
        FewFaces { all, count }
    }

    /// The faces, in their order.
    pub fn as_slice(&self) -> &[Face]
        ensures { result.now ≡ self.now }
    {
        &self.all[..self.count]
    }
}
