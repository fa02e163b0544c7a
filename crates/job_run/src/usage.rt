// The line that other words get.
ghost use Rattle.std.specs.Prelude.{◌≡◌, IfOk, string_bytes};
ghost use Rattle.job_run.specs.Usage.{usage_line};

use std::alloc::{AllocError, Global};

const USAGE: &str =
    "usage: bistellar JOB [--workers N] [--seed N] [--rounds N] [--tries N] [--heat N] [--relax N] [--depth N] [--room N] [--kind NAME] [--dim N] [--draws N]\n";

/// The answer to words that ask for no job.
pub(crate) fn usage_line(alloc: Global) -> Result<String, AllocError>
    ensures { IfOk result (λ t. string_bytes t ≡ usage_line) }
{
    String::from_str(alloc, USAGE)
}
