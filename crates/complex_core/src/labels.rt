// The labels of a face as a list by value.
ghost use Rattle.std.specs.Prelude.{◌≡◌, ◌≤◌, take};
ghost use Rattle.complex_core.specs.Labels.{padded};

use std::marker::Model;
use std::ops::DerefSlice;

/// The labels of a face, rising, to be read as a slice. They are few, so they go by value.
#[derive(Clone, Copy)]
pub struct Labels {
    places: [u16; 8],
    count: usize,
}

impl Model for Labels {
    ghost use Rattle.std.specs.Prelude.{◌≡◌, ◌≤◌, List, ℕ, length, take};
    ghost use Rattle.complex_core.specs.Labels.{padded};
    ghost use Rattle.complex_core.specs.Padding.{padded_back, length_back};

    ghost Value = { List ℕ };

    ghost view = { λ f. take f.count f.places };

    ghost invariant = { λ f. (f.count ≤ 8) × (f.places ≡ padded (take f.count f.places)) };

    ghost inverse = { λ xs. record { places = padded xs; count = length xs } };

    ghost inverse_ok = { λ f h i. record { places = padded_back f.count f.places h.1 i; count = length_back f.count f.places h.0 h.1 i } };
}

impl Labels {
    // The first of these labels, with zeros behind them.
    pub(crate) fn new(places: [u16; 8], count: usize) -> Labels
        requires few { count ≤ 8 }
        requires zeros { places ≡ padded (take count places) }
        ensures { result ≡ take count places }
    {
        Labels { places, count }
    }

    /// The labels.
    pub fn as_slice(&self) -> &[u16]
        ensures { result.now ≡ self.now }
    {
        &self.places[..self.count]
    }
}

impl DerefSlice for Labels {
    type Elem = u16;

    ghost deref_gives = { λ own shown. shown ≡ own };

    fn deref(&self) -> &[u16] {
        self.as_slice()
    }
}
