//! The next label of the facets over a face, with the facets that have it.

ghost use Rattle.std.specs.Prelude.{◌≡◌, if◌then◌else◌};
ghost use Rattle.std.specs.List.{find};
ghost use Rattle.anneal_plan.specs.Growth.{comes_next};
ghost use Rattle.anneal_plan.specs.Nearest.{nothing_yet, started, joined, seen, nearest};

use arrayvec::ArrayVec;
use complex_core::Face;
use std::marker::Model;

/// The least label that may come next, and the facets that have it, up to 256 of them. One pass over
/// facets finds both, and it takes no memory.
#[derive(Drop)]
pub(crate) struct Nearest {
    label: Option<u16>,
    rows: ArrayVec<Face, 256>,
    // Whether these are all facets with the label.
    whole: bool,
}

impl Model for Nearest {
    ghost use Rattle.anneal_plan.specs.Nearest.{Next};

    ghost Value = { Next };

    ghost view = { λ n. record { label = n.label; rows = n.rows.items; whole = n.whole } };
}

// The least label of a facet that is above the last one, and not the vertex.
fn label_after(row: &Face, vertex: u16, last: u16) -> Option<u16>
    ensures { result ≡ find (comes_next vertex last) row.now }
{
    row.labels()
        .iter()
        .copied()
        .find(|label| last < *label && *label != vertex)
}

impl Nearest {
    /// Before any facet was looked at.
    pub(crate) fn new() -> Nearest
        ensures { result ≡ nothing_yet }
    {
        Nearest {
            label: None,
            rows: ArrayVec::new(),
            whole: true,
        }
    }

    // Forgets the facets so far.
    fn clear(&mut self)
        ensures { self.new ≡ nothing_yet }
    {
        self.label = None;
        self.rows.clear();
        self.whole = true;
    }

    // Begins anew with a facet that has a lesser label.
    fn start(&mut self, row: &Face, label: u16)
        ensures { self.new ≡ started row.now label }
    {
        self.clear();
        self.rows.push(*row);
        self.label = Some(label);
    }

    // Keeps one more facet with the least label so far, if there is room.
    fn join(&mut self, row: &Face)
        ensures { self.new ≡ joined self.old row.now }
    {
        if self.rows.is_full() {
            self.whole = false;
        } else {
            self.rows.push(*row);
        }
    }

    // Looks at one more facet.
    fn see(&mut self, row: &Face, face: &Face, vertex: u16, last: u16)
        ensures { self.new ≡ seen face.now vertex last self.old row.now }
    {
        if !row.holds(face) {
            return;
        }
        let Some(label) = label_after(row, vertex, last) else {
            return;
        };
        match self.label {
            Some(least) if least < label => {}
            Some(least) if least == label => self.join(row),
            _ => self.start(row, label),
        }
    }

    /// The least label above the last one, and not the vertex, of the facets over a face. `None`
    /// exactly where there is none.
    pub(crate) fn next(&mut self, rows: &[Face], face: &Face, vertex: u16, last: u16) -> Option<u16>
        ensures near { self.new ≡ nearest rows.now vertex last face.now }
        ensures label { result ≡ self.new.label }
    {
        self.clear();
        for row in rows {
            self.see(row, face, vertex, last);
        }
        self.label
    }

    /// The facets with the label that came last, or all of which it was found where too many have it.
    pub(crate) fn rows<'a>(&'a self, all: &'a [Face]) -> &'a [Face]
        ensures { result.now ≡ (if self.now.whole then self.now.rows else all.now) }
    {
        if self.whole { &self.rows } else { all }
    }
}
