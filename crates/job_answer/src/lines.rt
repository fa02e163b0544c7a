// The lines that answers share.
ghost use Rattle.std.specs.Prelude.{◌≡◌, ◌++◌, OnOk, IfOk, string_bytes};
ghost use Rattle.std.specs.List.{flat_map};
ghost use Rattle.line_text.specs.Writing.{spaced, set_off};
ghost use Rattle.job_answer.specs.Lines.{complex_line, flip_line, reason_name, euler_line, ridge_line, apart_line, clash_line};

use complex_core::Complex;
use facet_text::write_complex;
use flip_rules::Illegal;
use pseudo_test::{Apart, Ridge};
use std::alloc::{AllocError, Global};

// Writes labels, each with a space after it.
fn write_spaced(text: &mut String, labels: &[u16]) -> Result<(), AllocError>
    ensures { OnOk result (string_bytes text.new ≡ string_bytes text.old ++ flat_map spaced labels.now) }
{
    for label in labels {
        write!(text, "{label} ")?;
    }
    Ok(())
}

/// Writes labels, each with a space before it.
pub fn write_set_off(text: &mut String, labels: &[u16]) -> Result<(), AllocError>
    ensures { OnOk result (string_bytes text.new ≡ string_bytes text.old ++ flat_map set_off labels.now) }
{
    for label in labels {
        write!(text, " {label}")?;
    }
    Ok(())
}

/// Writes the line of a complex.
pub fn write_complex_line(text: &mut Vec<u8>, complex: &Complex) -> Result<(), AllocError>
    ensures { OnOk result (text.new.items ≡ text.old.items ++ complex_line complex.now.facets) }
{
    write_complex(complex, text)?;
    text.push(b'\n')?;
    Ok(())
}

/// Writes the line of a flip with these sides.
#[tactic(auto, unfolding(line_text::specs::Writing::flip_text))]
pub fn write_sides_line(text: &mut String, first: &[u16], second: &[u16]) -> Result<(), AllocError>
    ensures { OnOk result (string_bytes text.new ≡ string_bytes text.old ++ flip_line (record { a = first.now; b = second.now })) }
{
    write_spaced(text, first)?;
    text.push('|')?;
    write_set_off(text, second)?;
    text.push('\n')?;
    Ok(())
}

/// The name of a rule that a flip breaks.
pub fn reason_name(reason: Illegal) -> &'static str
    ensures { result.now ≡ reason_name reason }
{
    match reason {
        Illegal::Shape => "shape",
        Illegal::NotAFace => "no-face",
        Illegal::LinkDiffers => "link-differs",
        Illegal::BIsFace => "b-face",
    }
}

/// The line of the Euler characteristic.
pub fn euler_line(alloc: Global, characteristic: i64) -> Result<String, AllocError>
    ensures { IfOk result (λ t. string_bytes t ≡ euler_line characteristic) }
{
    let mut text = String::from_str(alloc, "euler ")?;
    write!(text, "{characteristic}\n")?;
    Ok(text)
}

/// The line of a ridge that doesn't lie in two facets.
pub fn ridge_line(alloc: Global, ridge: Ridge) -> Result<String, AllocError>
    ensures { IfOk result (λ t. string_bytes t ≡ ridge_line ridge.face ridge.count) }
{
    let mut text = String::from_str(alloc, "closed no ridge")?;
    write_set_off(&mut text, &ridge.face.labels())?;
    let count = ridge.count;
    write!(text, " in {count}\n")?;
    Ok(text)
}

/// The line of two facets that no chain joins.
pub fn apart_line(alloc: Global, apart: Apart) -> Result<String, AllocError>
    ensures { IfOk result (λ t. string_bytes t ≡ apart_line apart.first apart.other) }
{
    let mut text = String::from_str(alloc, "strong no")?;
    write_set_off(&mut text, &apart.first.labels())?;
    text.push_str(" |")?;
    write_set_off(&mut text, &apart.other.labels())?;
    text.push('\n')?;
    Ok(text)
}

/// The line of facets that have no signs that agree.
pub fn clash_line(alloc: Global) -> Result<String, AllocError>
    ensures { IfOk result (λ t. string_bytes t ≡ clash_line) }
{
    String::from_str(alloc, "orientable no\n")
}
