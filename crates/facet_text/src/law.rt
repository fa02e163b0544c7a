//! What the reader's definition says in the words of the format.

ghost use Rattle.std.specs.Prelude.{◌≡◌, ℕ, List, [], Ok, drop};
ghost use Rattle.complex_core.specs.Complexes.{ComplexView};
ghost use Rattle.facet_text.specs.Grammar.{complex_at, complex_of};
ghost use Rattle.facet_text.specs.Spelling.{AreGood, Spells, Word, spelled};
ghost use Rattle.facet_text.specs.Writing.{to_semicolon};

/// Where the bytes from an offset on begin with a spelling of facets that keep the limits, their
/// complex is read there.
pub fn spelled_is_read()
    ensures { (bytes : List ℕ) (from : ℕ) (facets : List (List Word)) (rest : List ℕ) →
        Spells (drop from bytes) facets rest → AreGood facets →
        (offset : ℕ) × (complex_at bytes from ≡ Ok (complex_of (spelled facets), offset)) }
{}

/// Where a complex is read from an offset on, the bytes from there to the offset that is answered
/// spell its facets, and these keep the limits. A `;` that follows behind blanks is part of it.
pub fn read_is_spelled()
    ensures { (bytes : List ℕ) (from : ℕ) (k : ComplexView) (offset : ℕ) →
        complex_at bytes from ≡ Ok (k, offset) →
        (facets : List (List Word)) × (s : Spells (drop from bytes) facets (drop offset bytes))
        × AreGood facets × (k ≡ complex_of (spelled facets))
        × (s.ending ≡ [] → to_semicolon (drop offset bytes) ≡ 0) }
{}
