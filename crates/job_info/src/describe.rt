// The six lines that describe a complex.
ghost use Rattle.std.specs.Prelude.{◌≡◌, ◌++◌, OnOk, IfOk, string_bytes};
ghost use Rattle.std.specs.List.{flat_map};
ghost use Rattle.line_text.specs.Writing.{set_off};
ghost use Rattle.job_info.specs.Descriptions.{counted_lines, IsClosedLine, IsStrongLine, IsOrientableLine, Describes};

use complex_core::Complex;
use face_counts::{counts, euler_from};
use job_answer::{apart_line, clash_line, euler_line, ridge_line};
use orient_test::{Orientation, orient};
use pseudo_test::{closed, strong};
use std::alloc::{AllocError, Global};

// Writes numbers of faces, each with a space before it.
fn write_counts(text: &mut String, counts: &[u64]) -> Result<(), AllocError>
    ensures { OnOk result (string_bytes text.new ≡ string_bytes text.old ++ flat_map set_off counts.now) }
{
    for count in counts {
        write!(text, " {count}")?;
    }
    Ok(())
}

// The lines of the dimension, of the numbers of faces, and of the Euler characteristic.
fn counted_lines(alloc: Global, complex: &Complex) -> Result<String, AllocError>
    ensures { IfOk result (λ t. string_bytes t ≡ counted_lines complex.now) }
{
    let mut text = String::from_str(alloc, "dimension ")?;
    let dim = complex.dim();
    write!(text, "{dim}\nf")?;
    let counts = counts(alloc, complex)?;
    write_counts(&mut text, &counts)?;
    text.push('\n')?;
    text.push_str(&euler_line(alloc, euler_from(complex, &counts))?)?;
    Ok(text)
}

// Whether each ridge lies in two facets.
fn closed_line(alloc: Global, complex: &Complex) -> Result<String, AllocError>
    ensures { IfOk result (λ t. IsClosedLine complex.now.facets (string_bytes t)) }
{
    match closed(alloc, complex)? {
        None => String::from_str(alloc, "closed yes\n"),
        Some(ridge) => ridge_line(alloc, ridge),
    }
}

// Whether any two facets are joined by a chain over ridges.
fn strong_line(alloc: Global, complex: &Complex) -> Result<String, AllocError>
    ensures { IfOk result (λ t. IsStrongLine complex.now.facets (string_bytes t)) }
{
    match strong(alloc, complex)? {
        None => String::from_str(alloc, "strong yes\n"),
        Some(apart) => apart_line(alloc, apart),
    }
}

// Whether signs of the facets are opposite at each ridge of two facets.
fn orientable_line(alloc: Global, complex: &Complex) -> Result<String, AllocError>
    ensures { IfOk result (λ t. IsOrientableLine complex.now.facets (string_bytes t)) }
{
    match orient(alloc, complex)? {
        Orientation::Oriented(_) => String::from_str(alloc, "orientable yes\n"),
        Orientation::Clash(_) => clash_line(alloc),
    }
}

/// The six lines that describe a complex.
pub(crate) fn description(alloc: Global, complex: &Complex) -> Result<String, AllocError>
    ensures { IfOk result (λ t. Describes complex.now (string_bytes t)) }
{
    let mut text = counted_lines(alloc, complex)?;
    text.push_str(&closed_line(alloc, complex)?)?;
    text.push_str(&strong_line(alloc, complex)?)?;
    text.push_str(&orientable_line(alloc, complex)?)?;
    Ok(text)
}
