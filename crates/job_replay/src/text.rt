// The texts of the answers.
ghost use Rattle.std.specs.Prelude.{◌≡◌, IfOk, string_bytes};
ghost use Rattle.cert_text.specs.Statements.{statement};
ghost use Rattle.job_replay.specs.Texts.{yes_text, manifold_text, shown_text, illegal_text, wrong_end_text};

use cert_text::Certificate;
use flip_rules::Illegal;
use job_answer::reason_name;
use std::alloc::{AllocError, Global};

// The answer to flips that end as stated.
fn yes_text(alloc: Global, flips: u64, facets: u64) -> Result<String, AllocError>
    ensures { IfOk result (λ t. string_bytes t ≡ yes_text flips facets) }
{
    let mut text = String::from_str(alloc, "yes\n")?;
    write!(text, "flips {flips}\n")?;
    write!(text, "facets {facets}\n")?;
    Ok(text)
}

// The answer to flips of each vertex that end as stated.
fn manifold_text(alloc: Global, vertices: u64, flips: u64) -> Result<String, AllocError>
    ensures { IfOk result (λ t. string_bytes t ≡ manifold_text vertices flips) }
{
    let mut text = String::from_str(alloc, "yes\n")?;
    write!(text, "vertices {vertices}\n")?;
    write!(text, "flips {flips}\n")?;
    Ok(text)
}

/// The answer to a certificate that shows what it states: how many flips it has, and how many facets their end has, or for a
/// manifold how many vertices.
pub(crate) fn shown_text(
    alloc: Global,
    certificate: &Certificate,
    flips: u64,
    count: u64,
) -> Result<String, AllocError>
    ensures { IfOk result (λ t. string_bytes t ≡ shown_text (statement certificate.now) flips count) }
{
    match certificate {
        Certificate::Sphere(_) | Certificate::Equal { .. } => yes_text(alloc, flips, count),
        Certificate::Manifold(_) => manifold_text(alloc, count, flips),
    }
}

/// The answer to flips of which one is illegal.
pub(crate) fn illegal_text(
    alloc: Global,
    number: u64,
    reason: Illegal,
) -> Result<String, AllocError>
    ensures { IfOk result (λ t. string_bytes t ≡ illegal_text number reason) }
{
    let mut text = String::from_str(alloc, "no\n")?;
    write!(text, "flip {number} ")?;
    text.push_str(reason_name(reason))?;
    text.push('\n')?;
    Ok(text)
}

/// The answer to flips that end elsewhere.
pub(crate) fn wrong_end_text(alloc: Global) -> Result<String, AllocError>
    ensures { IfOk result (λ t. string_bytes t ≡ wrong_end_text) }
{
    String::from_str(alloc, "no\nwrong end\n")
}
