// The five lines of the answer.
ghost use Rattle.std.specs.Prelude.{◌≡◌, IfOk, string_bytes};
ghost use Rattle.job_drill.specs.Texts.{lines, searched, summary};

use job_sphere::Decision;
use round_run::{Report, SphereFound};
use std::alloc::{AllocError, Global};

// The five lines.
fn lines(
    alloc: Global,
    facets: usize,
    verdict: &str,
    rounds: usize,
    flips: usize,
    end: usize,
) -> Result<String, AllocError>
    ensures { IfOk result (λ t. string_bytes t ≡ lines facets verdict.now rounds flips end) }
{
    let mut text = String::new(alloc);
    write!(text, "facets {facets}\n")?;
    write!(text, "verdict {verdict}\n")?;
    write!(text, "rounds {rounds}\n")?;
    write!(text, "flips {flips}\n")?;
    write!(text, "end {end}\n")?;
    Ok(text)
}

// What is told of a search.
fn searched(
    alloc: Global,
    facets: usize,
    verdict: &str,
    report: &Report,
) -> Result<String, AllocError>
    ensures { IfOk result (λ t. string_bytes t ≡ searched facets verdict.now report.now) }
{
    let flips = report.named_flips(alloc)?.len();
    let end = report.end().facets().len();
    lines(alloc, facets, verdict, report.rounds().len(), flips, end)
}

/// What is told of a complex with so many facets.
pub(crate) fn summary(
    alloc: Global,
    facets: usize,
    decision: &Decision,
) -> Result<String, AllocError>
    ensures { IfOk result (λ t. string_bytes t ≡ summary facets decision.now) }
{
    match decision {
        Decision::Excluded(_) => lines(alloc, facets, "no", 0, 0, facets),
        Decision::Searched(SphereFound::Sphere(report)) => searched(alloc, facets, "yes", report),
        Decision::Searched(SphereFound::Undecided(report)) => {
            searched(alloc, facets, "undecided", report)
        }
    }
}
