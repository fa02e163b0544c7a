// Laws of the job `make`.
ghost use Rattle.job_answer.specs.Meanings.{Lawful};
ghost use Rattle.job_make.specs.Recipes.{Recipe};
ghost use Rattle.job_make.specs.Answers.{meaning};
ghost use Rattle.job_make.specs.Laws.{YesTellsMade, NeverSaysNo};

/// At Yes the text, read as an input, tells the complex of the generator, which is closed, strongly connected, and has the Euler
/// characteristic and the orientability of its kind (`tells`). There is no No (`make`). Each answer is a Yes, and there is one (`lawful`).
pub fn make_law()
    ensures tells { YesTellsMade }
    ensures make { NeverSaysNo }
    ensures lawful { (recipe : Recipe) → Lawful (meaning recipe) }
{}
