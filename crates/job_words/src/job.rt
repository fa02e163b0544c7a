//! What words ask for, or why they ask for nothing.

ghost use Rattle.std.specs.Prelude.{◌≡◌, ◌≢◌, IfSome, IfNone};
ghost use Rattle.job_words.specs.Names.{job_name, job_named};
ghost use Rattle.job_words.specs.declared.job.JobName.{JobName as Named};
ghost use Rattle.job_words.specs.declared.job.UsageFault.TheVariants.{Memory};

use anneal_plan::Plan;
use make_complex::Kind;
use std::alloc::AllocError;
use thiserror::Error;

/// The jobs.
#[derive(Clone, Copy, Debug, PartialEq, Eq)]
pub enum JobName {
    /// Counts a complex and names its properties.
    Info,
    /// Replays a certificate.
    Replay,
    /// Runs a list of events.
    Trace,
    /// Searches for flips from a complex to the boundary of a simplex.
    Sphere,
    /// Searches for flips from one complex to another.
    Equiv,
    /// Searches for a renaming of one complex to another.
    Iso,
    /// Searches for flips from each link of a complex to the boundary of a simplex.
    Manifold,
    /// Makes a complex.
    Make,
    /// Makes a complex, and searches as `Sphere` does.
    Drill,
}

impl JobName {
    /// The job of this name.
    pub fn from_name(name: &str) -> Option<JobName>
        ensures named { result ≡ job_named name.now }
        ensures some { IfSome result (λ job. name.now ≡ job_name job) }
        ensures none { IfNone result ((job : Named) → name.now ≢ job_name job) }
    {
        match name {
            "info" => Some(JobName::Info),
            "replay" => Some(JobName::Replay),
            "trace" => Some(JobName::Trace),
            "sphere" => Some(JobName::Sphere),
            "equiv" => Some(JobName::Equiv),
            "iso" => Some(JobName::Iso),
            "manifold" => Some(JobName::Manifold),
            "make" => Some(JobName::Make),
            "drill" => Some(JobName::Drill),
            _ => None,
        }
    }

    /// Its name.
    pub fn name(self) -> &'static str
        ensures { result.now ≡ job_name self }
    {
        match self {
            JobName::Info => "info",
            JobName::Replay => "replay",
            JobName::Trace => "trace",
            JobName::Sphere => "sphere",
            JobName::Equiv => "equiv",
            JobName::Iso => "iso",
            JobName::Manifold => "manifold",
            JobName::Make => "make",
            JobName::Drill => "drill",
        }
    }
}

/// What words ask for. Each job takes all options, and passes over those that it doesn't use.
#[derive(Clone, Copy, Debug, PartialEq, Eq)]
pub struct Job {
    /// Which job it is.
    pub name: JobName,
    /// The numbers of its searches.
    pub plan: Plan,
    /// The kind of a complex that is made.
    pub kind: Kind,
    /// The dimension of a complex that is made, from 1 to 6.
    pub dim: u32,
    /// How many random flips are tried on a complex that is made, at most 100,000.
    pub draws: u32,
}

/// Why words name no job: the first reason, in the order of the variants.
#[derive(Clone, Copy, Debug, PartialEq, Eq, Error)]
pub enum UsageFault {
    /// The command doesn't take the words.
    #[error("words")]
    Words,
    /// There is no such job, or no such kind.
    #[error("name")]
    Name,
    /// The tries of all workers in all rounds are above 250,000.
    #[error("product")]
    Product,
    /// A surface has another dimension than 2.
    #[error("dimension")]
    KindDim,
    /// Memory ran out.
    #[error("memory")]
    Memory,
}

impl From<AllocError> for UsageFault {
    ghost from_gives = { λ _ e. e ≡ Memory };

    fn from(_e: AllocError) -> UsageFault {
        UsageFault::Memory
    }
}
