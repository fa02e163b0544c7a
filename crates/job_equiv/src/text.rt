// The texts of the answers.
ghost use Rattle.std.specs.Prelude.{◌≡◌, IfOk, length, string_bytes};
ghost use Rattle.job_equiv.specs.Texts.{answer_word, difference_text, found_text, undecided_text};

use cert_text::{Certificate, write_certificate};
use complex_core::{Complex, VertexMap};
use flip_laws::Differ;
use flip_rules::Flip;
use round_run::Report;
use search_lines::verdict_lines;
use std::alloc::{AllocError, Global};

// Yes or no.
fn answer_word(answer: bool) -> &'static str
    ensures { result.now ≡ answer_word answer }
{
    if answer { "yes" } else { "no" }
}

/// The answer to two complexes that differ.
pub(crate) fn difference_text(alloc: Global, differ: Differ) -> Result<String, AllocError>
    ensures { IfOk result (λ t. string_bytes t ≡ difference_text differ) }
{
    let mut text = String::from_str(alloc, "no\n")?;
    match differ {
        Differ::Dimension(first, second) => write!(text, "dimension {first} {second}\n")?,
        Differ::Euler(first, second) => write!(text, "euler {first} {second}\n")?,
        Differ::Orientable(first, second) => {
            let first = answer_word(first);
            let second = answer_word(second);
            write!(text, "orientable {first} {second}\n")?
        }
    }
    Ok(text)
}

/// The answer to two complexes where flips lead from the first to one that the map takes to the second: a certificate, in the labels
/// of the first.
pub(crate) fn found_text(
    alloc: Global,
    report: &Report,
    target: Complex,
    flips: Vec<Flip>,
    map: VertexMap,
) -> Result<Vec<u8>, AllocError>
    ensures { IfOk result (λ t. t.items ≡ found_text (length report.now.rounds) target flips.items map) }
{
    let mut text = verdict_lines(alloc, "yes", report.rounds().len())?.into_bytes();
    let certificate = Certificate::Equal { target, flips, map };
    write_certificate(&certificate, &mut text)?;
    Ok(text)
}

/// The answer to two complexes of which no comparison found a map.
pub(crate) fn undecided_text(
    alloc: Global,
    first: &Report,
    second: &Report,
) -> Result<Vec<u8>, AllocError>
    ensures { IfOk result (λ t. t.items ≡ undecided_text (length first.now.rounds) (length first.now.end.facets) (length second.now.end.facets)) }
{
    let near = first.end().facets().len();
    let far = second.end().facets().len();
    let mut text = verdict_lines(alloc, "undecided", first.rounds().len())?;
    write!(text, "facets {near} {far}\n")?;
    Ok(text.into_bytes())
}
