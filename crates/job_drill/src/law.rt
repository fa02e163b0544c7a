// Laws of the job `drill`.
ghost use Rattle.anneal_plan.specs.Numbers.{Numbers};
ghost use Rattle.job_answer.specs.Meanings.{Lawful};
ghost use Rattle.job_make.specs.Recipes.{Recipe};
ghost use Rattle.job_drill.specs.Answers.{meaning};
ghost use Rattle.job_drill.specs.Laws.{NoIsSound, VerdictTellsSearch, YesReaches};

/// At No no list of legal flips leads from the complex that was made to the boundary of a simplex (`sound`), and at Yes the flips of
/// the search that is reported lead there (`reaches`). At Yes and Undecided a search of one worker is reported, whose journal is one
/// legal history from the complex that was made (`searched`). Each answer is Yes, No or Undecided with a report that fits, and
/// without rounds there is one (`lawful`).
pub fn drill_law()
    ensures sound { NoIsSound }
    ensures reaches { YesReaches }
    ensures searched { VerdictTellsSearch }
    ensures lawful { (recipe : Recipe) (plan : Numbers) → Lawful (meaning recipe plan) }
{}
