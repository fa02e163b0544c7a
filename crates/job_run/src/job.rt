// The jobs, and the words that ask for them.
ghost use Rattle.std.specs.Prelude.{◌≡◌, IfOk, MatchOption, map, string_bytes};
ghost use Rattle.job_make.specs.Recipes.{CanMake};
ghost use Rattle.job_run.specs.Jobs.{IsJob, NamesNoJob, input_limit, job_of, recipe_of};

use anneal_plan::Plan;
use job_make::Recipe;
use job_words::{Job as Asked, JobName, UsageFault, read_words};
use std::alloc::{AllocError, Global};

/// What words can ask for.
#[derive(Clone, Copy)]
pub(crate) enum Job {
    Replay,
    Trace,
    Info,
    Iso,
    Sphere(Plan),
    Equiv(Plan),
    Manifold(Plan),
    Make(Recipe),
    Drill(Plan, Recipe),
}

impl Job {
    // The job that was asked for.
    fn of_asked(asked: Asked) -> Job
        requires { CanMake (recipe_of asked) }
        ensures { result ≡ job_of asked }
    {
        let recipe = Recipe::new(asked.kind, asked.dim, asked.draws, asked.plan.seed());
        match asked.name {
            JobName::Replay => Job::Replay,
            JobName::Trace => Job::Trace,
            JobName::Info => Job::Info,
            JobName::Iso => Job::Iso,
            JobName::Sphere => Job::Sphere(asked.plan),
            JobName::Equiv => Job::Equiv(asked.plan),
            JobName::Manifold => Job::Manifold(asked.plan),
            JobName::Make => Job::Make(recipe),
            JobName::Drill => Job::Drill(asked.plan, recipe),
        }
    }

    /// The job that the words ask for, if they ask for one.
    pub(crate) fn of_words(alloc: Global, words: &[String]) -> Result<Option<Job>, AllocError>
        ensures { IfOk result (λ found. MatchOption found (NamesNoJob (map string_bytes words.now)) (IsJob (map string_bytes words.now))) }
    {
        match read_words(alloc, words) {
            Ok(asked) => Ok(Some(Job::of_asked(asked))),
            Err(UsageFault::Memory) => Err(AllocError),
            Err(UsageFault::Words | UsageFault::Name | UsageFault::Product | UsageFault::KindDim) =>
                Ok(None),
        }
    }

    /// The most bytes of an input, where it takes one.
    pub(crate) fn limit(self) -> Option<usize>
        ensures { result ≡ input_limit self }
    {
        match self {
            Job::Replay => Some(job_replay::MOST_BYTES),
            Job::Trace => Some(job_trace::MOST_BYTES),
            Job::Info => Some(job_info::MOST_BYTES),
            Job::Iso => Some(job_iso::MOST_BYTES),
            Job::Sphere(_) => Some(job_sphere::MOST_BYTES),
            Job::Equiv(_) => Some(job_equiv::MOST_BYTES),
            Job::Manifold(_) => Some(job_manifold::MOST_BYTES),
            Job::Make(_) | Job::Drill(_, _) => None,
        }
    }
}
