//! What the definitions say of words, in words of their own.

ghost use Rattle.std.specs.Prelude.{◌≡◌, ◌⊎◌, ◌↔◌, ◌∷◌, [], Err, List, Ok, Result};
ghost use Rattle.clap.specs.Words.{Text};
ghost use Rattle.anneal_plan.specs.Numbers.{numbers};
ghost use Rattle.make_complex.specs.declared.kind.Kind.TheVariants as kind;
ghost use Rattle.job_words.specs.declared.job.Job.{Job};
ghost use Rattle.job_words.specs.declared.job.JobName.{JobName};
ghost use Rattle.job_words.specs.declared.job.UsageFault.{UsageFault};
ghost use Rattle.job_words.specs.declared.job.UsageFault.TheVariants.{Memory};
ghost use Rattle.job_words.specs.Jobs.{Asks, Gives, job_at};
ghost use Rattle.job_words.specs.Names.{job_name};

/// The name of a job alone asks for this job, with the default of each option.
pub fn name_alone()
    ensures { (job : JobName) → job_at (job_name job ∷ []) ≡ Ok (record {
      name = job;
      plan = numbers 1 4 40 200 6 40 2 16;
      kind = kind.Simplex;
      dim = 2;
      draws = 0;
    }) }
{}

/// Words ask for a job exactly where the command takes them, they have its parts, and it keeps the
/// limits on its parts together. They ask for a fault exactly where it stands and none before it.
pub fn asked_exactly()
    ensures { (words : List Text) (answer : Result Job UsageFault) →
        (job_at words ≡ answer) ↔ Asks words answer }
{}

/// Words determine what they ask for: two answers to them are equal, unless memory ran out at one.
pub fn words_decide()
    ensures { (words : List Text) (first second : Result Job UsageFault) → Gives first (job_at words) →
        Gives second (job_at words) → (first ≡ Err Memory) ⊎ (second ≡ Err Memory) ⊎ (first ≡ second) }
{}
