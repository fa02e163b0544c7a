// The rows of a star over a face.
ghost use Rattle.std.specs.Prelude.{◌≡◌};
ghost use Rattle.std.specs.Iterator.{YieldsFirstRef, item_count};
ghost use Rattle.complex_core.specs.Complexes.{over};

use complex_core::Face;
use std::marker::Model;

/// The rows of a star that contain a face, in order, lent one after another. It takes no memory.
///
/// Contracts see the list of the rows that are left.
#[derive(Drop)]
pub struct Over<'a> {
    rows: &'a [Face],
    face: Face,
}

impl<'a> Model for Over<'a> {
    ghost use Rattle.std.specs.Prelude.{List, ℕ};
    ghost use Rattle.complex_core.specs.Complexes.{over};

    ghost Value = { List (List ℕ) };

    ghost view = { λ s. over s.rows.now s.face };
}

impl<'a> Over<'a> {
    // Those of these rows that contain the face.
    pub(crate) fn new(rows: &'a [Face], face: &Face) -> Over<'a>
        ensures { result ≡ over rows.now face.now }
    {
        Over { rows, face: *face }
    }
}

impl<'a> Iterator for Over<'a> {
    type Item = &'a Face;

    ghost next_gives = { YieldsFirstRef (λ left. left) };

    ghost remaining = { item_count (λ left. left) };

    fn next(&mut self) -> Option<&'a Face> {
        while let Some((row, rows)) = self.rows.split_first() {
            self.rows = rows;
            if row.holds(&self.face) {
                return Some(row);
            }
        }
        None
    }
}
