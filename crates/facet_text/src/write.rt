//! The writer of complexes.

ghost use Rattle.std.specs.Prelude.{◌≡◌, ◌+◌, ◌++◌, ℕ, List, Ok, length, OnErr, OnOk};
ghost use Rattle.std.specs.Fmt.{decimal};
ghost use Rattle.complex_core.specs.Complexes.{ComplexView};
ghost use Rattle.facet_text.specs.Grammar.{complex_at};
ghost use Rattle.facet_text.specs.Writing.{KeepsLimits, OnlyAdds, comma_before, facet_text, text_of, to_semicolon};

use complex_core::{Complex, Face};
use std::alloc::AllocError;

/// Appends the one canonical text of a complex: no blanks, no name, no `;`, facets and labels
/// rising. After want of memory `out` is as it was.
pub fn write_complex(complex: &Complex, out: &mut Vec<u8>) -> Result<(), AllocError>
    ensures ok { OnOk result (out.new.items ≡ out.old.items ++ text_of complex.now.facets) }
    ensures err { OnErr result (out.new.items ≡ out.old.items) }
{
    let before = out.len();
    let result = put_facets(out, complex.facets());
    if result.is_err() {
        out.truncate(before);
    }
    result
}

/// A complex that was written is read again, whatever bytes stand before and after its text. Where
/// a `;` follows behind blanks the offset is after it, and else after the text.
pub fn written_is_read()
    ensures { (before after : List ℕ) (k : ComplexView) → KeepsLimits k →
        complex_at (before ++ text_of k.facets ++ after) (length before)
        ≡ Ok (k, length before + length (text_of k.facets) + to_semicolon after) }
{}

/// Adds the facets of a complex.
#[tactic(auto, unfolding(crate::specs::Writing::text_of))]
fn put_facets(out: &mut Vec<u8>, facets: &[Face]) -> Result<(), AllocError>
    ensures ok { OnOk result (out.new.items ≡ out.old.items ++ text_of facets.now) }
    ensures err { OnErr result (OnlyAdds out.old.items out.new.items) }
{
    out.push(b'[')?;
    for (i, facet) in facets.iter().enumerate() {
        put_comma(out, i)?;
        put_facet(out, &facet.labels())?;
    }
    out.push(b']')?;
    Ok(())
}

/// Adds a facet's labels, with commas between them.
fn put_facet(out: &mut Vec<u8>, labels: &[u16]) -> Result<(), AllocError>
    ensures ok { OnOk result (out.new.items ≡ out.old.items ++ facet_text labels.now) }
    ensures err { OnErr result (OnlyAdds out.old.items out.new.items) }
{
    out.push(b'[')?;
    for (i, label) in labels.iter().enumerate() {
        put_comma(out, i)?;
        put_number(out, *label)?;
    }
    out.push(b']')?;
    Ok(())
}

/// Adds the comma before a piece that is not the first.
fn put_comma(out: &mut Vec<u8>, i: usize) -> Result<(), AllocError>
    ensures ok { OnOk result (out.new.items ≡ out.old.items ++ comma_before i) }
    ensures err { OnErr result (OnlyAdds out.old.items out.new.items) }
{
    if i > 0 {
        out.push(b',')?;
    }
    Ok(())
}

/// Adds a label's digits.
fn put_number(out: &mut Vec<u8>, number: u16) -> Result<(), AllocError>
    ensures ok { OnOk result (out.new.items ≡ out.old.items ++ decimal number) }
    ensures err { OnErr result (OnlyAdds out.old.items out.new.items) }
{
    let mut buffer = itoa::Buffer::new();
    out.extend_from_slice(buffer.format(number).as_bytes())
}
