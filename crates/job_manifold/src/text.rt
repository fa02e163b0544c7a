// The texts of the answers.
ghost use Rattle.std.specs.Prelude.{◌≡◌, ◌++◌, IfOk, OnOk, map, string_bytes};
ghost use Rattle.std.specs.List.{flat_map};
ghost use Rattle.line_text.specs.Writing.{set_off};
ghost use Rattle.cert_text.specs.Statements.{of_vertex};
ghost use Rattle.link_check.specs.declared.bad.LinkFact.TheVariants as fact;
ghost use Rattle.job_manifold.specs.Texts.{bad_text, fact_line, found_text, open_text, unclosed_text};

use cert_text::{Certificate, write_certificate};
use flip_rules::Flip;
use job_answer::{euler_line, ridge_line, write_set_off};
use link_check::{BadLink, LinkFact};
use pseudo_test::{Apart, Ridge};
use round_run::Report;
use std::alloc::{AllocError, Global};

/// The answer to a complex that isn't closed.
pub(crate) fn unclosed_text(alloc: Global, ridge: Ridge) -> Result<String, AllocError>
    ensures { IfOk result (λ t. string_bytes t ≡ unclosed_text ridge.face ridge.count) }
{
    let mut text = String::from_str(alloc, "no\n")?;
    text.push_str(&ridge_line(alloc, ridge)?)?;
    Ok(text)
}

// What a link lacks.
fn fact_line(alloc: Global, fact: LinkFact) -> Result<String, AllocError>
    ensures { IfOk result (λ t. string_bytes t ≡ fact_line fact) }
{
    match fact {
        LinkFact::Euler(characteristic) => euler_line(alloc, characteristic),
        LinkFact::Split(apart) => split_line(alloc, apart),
    }
}

// Two facets of a link that no chain joins.
fn split_line(alloc: Global, apart: Apart) -> Result<String, AllocError>
    ensures { IfOk result (λ t. string_bytes t ≡ fact_line (fact.Split apart)) }
{
    let mut text = String::from_str(alloc, "apart")?;
    write_set_off(&mut text, &apart.first.labels())?;
    text.push_str(" |")?;
    write_set_off(&mut text, &apart.other.labels())?;
    text.push('\n')?;
    Ok(text)
}

/// The answer to a complex that has a bad link.
pub(crate) fn bad_text(alloc: Global, bad: BadLink) -> Result<String, AllocError>
    ensures { IfOk result (λ t. string_bytes t ≡ bad_text bad) }
{
    let mut text = String::from_str(alloc, "no\nlink")?;
    write_set_off(&mut text, &bad.face.labels())?;
    text.push(' ')?;
    text.push_str(&fact_line(alloc, bad.fact)?)?;
    Ok(text)
}

/// The answer to a complex where flips lead the link of each vertex to the boundary of a simplex: a certificate.
pub(crate) fn found_text(alloc: Global, lists: Vec<(u16, Vec<Flip>)>) -> Result<Vec<u8>, AllocError>
    ensures { IfOk result (λ t. t.items ≡ found_text (map of_vertex lists.items)) }
{
    let mut text = String::from_str(alloc, "yes\n")?.into_bytes();
    write_certificate(&Certificate::Manifold(lists), &mut text)?;
    Ok(text)
}

// Writes the vertices of records, each with a space before it.
fn write_vertices(text: &mut String, left: &[(u16, Report)]) -> Result<(), AllocError>
    ensures { OnOk result (string_bytes text.new ≡ string_bytes text.old ++ flat_map set_off (map (λ p. p.0) left.now)) }
{
    for record in left {
        let vertex = record.0;
        write!(text, " {vertex}")?;
    }
    Ok(())
}

/// The answer to a complex where the links of these vertices stay open.
pub(crate) fn open_text(alloc: Global, left: &[(u16, Report)]) -> Result<String, AllocError>
    ensures { IfOk result (λ t. string_bytes t ≡ open_text (map (λ p. p.0) left.now)) }
{
    let mut text = String::from_str(alloc, "undecided\nopen")?;
    write_vertices(&mut text, left)?;
    text.push('\n')?;
    Ok(text)
}
