// The texts of the answers.
ghost use Rattle.std.specs.Prelude.{◌≡◌, IfOk, length, string_bytes};
ghost use Rattle.report_text.specs.Shown.{told_flips};
ghost use Rattle.job_sphere.specs.Texts.{obstacle_line, obstacle_text, found_text, undecided_text};

use cert_text::{Certificate, write_certificate};
use flip_laws::Obstacle;
use job_answer::{apart_line, clash_line, euler_line, ridge_line};
use round_run::Report;
use search_lines::verdict_lines;
use std::alloc::{AllocError, Global};

// The line of an obstacle.
fn obstacle_line(alloc: Global, obstacle: Obstacle) -> Result<String, AllocError>
    ensures { IfOk result (λ t. string_bytes t ≡ obstacle_line obstacle) }
{
    match obstacle {
        Obstacle::NotClosed(ridge) => ridge_line(alloc, ridge),
        Obstacle::NotStrong(apart) => apart_line(alloc, apart),
        Obstacle::Euler(characteristic) => euler_line(alloc, characteristic),
        Obstacle::NotOrientable => clash_line(alloc),
    }
}

/// The answer to a complex that has an obstacle.
pub(crate) fn obstacle_text(alloc: Global, obstacle: Obstacle) -> Result<String, AllocError>
    ensures { IfOk result (λ t. string_bytes t ≡ obstacle_text obstacle) }
{
    let mut text = String::from_str(alloc, "no\n")?;
    text.push_str(&obstacle_line(alloc, obstacle)?)?;
    Ok(text)
}

/// The answer to a complex that a search led to the boundary of a simplex: a certificate, in the labels of the complex.
pub(crate) fn found_text(alloc: Global, report: &Report) -> Result<Vec<u8>, AllocError>
    ensures { IfOk result (λ t. t.items ≡ found_text (length report.now.rounds) (told_flips report.now)) }
{
    let flips = report.named_flips(alloc)?;
    let mut text = verdict_lines(alloc, "yes", report.rounds().len())?.into_bytes();
    write_certificate(&Certificate::Sphere(flips), &mut text)?;
    Ok(text)
}

/// The answer to a complex that no descent of a search led there.
pub(crate) fn undecided_text(alloc: Global, report: &Report) -> Result<Vec<u8>, AllocError>
    ensures { IfOk result (λ t. t.items ≡ undecided_text (length report.now.rounds) (length (told_flips report.now)) (length report.now.end.facets)) }
{
    let flips = report.named_flips(alloc)?.len();
    let facets = report.end().facets().len();
    let mut text = verdict_lines(alloc, "undecided", report.rounds().len())?;
    write!(text, "flips {flips}\n")?;
    write!(text, "facets {facets}\n")?;
    Ok(text.into_bytes())
}
