//! The writers of numbers and flips.

ghost use Rattle.std.specs.Prelude.{◌≡◌, ◌∷◌, ◌++◌, ◌+◌, ℕ, List, Ok, OnErr, OnOk, length};
ghost use Rattle.std.specs.List.{flat_map};
ghost use Rattle.std.specs.Fmt.{decimal};
ghost use Rattle.facet_text.specs.Lines.{items};
ghost use Rattle.facet_text.specs.Writing.{OnlyAdds};
ghost use Rattle.flip_rules.specs.declared.flip.Flip.{Flip};
ghost use Rattle.line_text.specs.declared.label.Labels.{Labels};
ghost use Rattle.line_text.specs.Flips.{flip_at};
ghost use Rattle.line_text.specs.Writing.{HasSides, flip_text, set_off, spaced};

use flip_rules::Flip;
use std::alloc::AllocError;

/// Appends the decimal digits of a number, without leading zeros. After want of memory `out` is as
/// it was.
pub fn write_number(number: usize, out: &mut Vec<u8>) -> Result<(), AllocError>
    ensures ok { OnOk result (out.new.items ≡ out.old.items ++ decimal number) }
    ensures err { OnErr result (out.new.items ≡ out.old.items) }
{
    let mut buffer = itoa::Buffer::new();
    out.extend_from_slice(buffer.format(number).as_bytes())
}

/// Appends the labels of A, the word `|` and the labels of B, with single spaces between them and
/// no line feed. After want of memory `out` is as it was.
pub fn write_flip(flip: &Flip, out: &mut Vec<u8>) -> Result<(), AllocError>
    ensures ok { OnOk result (out.new.items ≡ out.old.items ++ flip_text flip.now) }
    ensures err { OnErr result (out.new.items ≡ out.old.items) }
{
    let before = out.len();
    let result = put_flip(flip, out);
    if result.is_err() {
        out.truncate(before);
    }
    result
}

#[tactic(auto, unfolding(crate::specs::Writing::flip_text))]
fn put_flip(flip: &Flip, out: &mut Vec<u8>) -> Result<(), AllocError>
    ensures ok { OnOk result (out.new.items ≡ out.old.items ++ flip_text flip.now) }
    ensures err { OnErr result (OnlyAdds out.old.items out.new.items) }
{
    put_first(&flip.a.labels(), out)?;
    out.push(b'|')?;
    put_second(&flip.b.labels(), out)
}

/// Adds labels, with a space after each.
fn put_first(labels: &[u16], out: &mut Vec<u8>) -> Result<(), AllocError>
    ensures ok { OnOk result (out.new.items ≡ out.old.items ++ flat_map spaced labels.now) }
    ensures err { OnErr result (OnlyAdds out.old.items out.new.items) }
{
    for label in labels {
        write_number(usize::from(*label), out)?;
        out.push(b' ')?;
    }
    Ok(())
}

/// Adds labels, with a space before each.
fn put_second(labels: &[u16], out: &mut Vec<u8>) -> Result<(), AllocError>
    ensures ok { OnOk result (out.new.items ≡ out.old.items ++ flat_map set_off labels.now) }
    ensures err { OnErr result (OnlyAdds out.old.items out.new.items) }
{
    for label in labels {
        out.push(b' ')?;
        write_number(usize::from(*label), out)?;
    }
    Ok(())
}

/// A flip whose sides have 1 to 7 of the labels is read again from its text, whatever bytes stand
/// before it and behind its line feed.
pub fn written_flip_is_read()
    ensures { (labels : Labels) (before after : List ℕ) (f : Flip) → HasSides labels f →
        flip_at labels (items (before ++ (flip_text f ++ 10 ∷ after)) (length before))
        ≡ Ok (f, items (before ++ (flip_text f ++ 10 ∷ after)) (length before + length (flip_text f))) }
{}
