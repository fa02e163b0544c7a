// Laws of the job `sphere`.
ghost use Rattle.anneal_plan.specs.Numbers.{Numbers};
ghost use Rattle.job_answer.specs.Meanings.{Lawful};
ghost use Rattle.job_sphere.specs.Answers.{meaning};
ghost use Rattle.job_sphere.specs.Laws.{NoIsSound, YesIsCertified, VerdictTellsSearch, CyclesAreDecided};

/// At No the bytes tell a complex, the text names the first fact of a sphere that it lacks, and no list of legal flips leads from
/// it to the boundary of a simplex (`sound`). At Yes the text is a certificate of the complex, with the flips of the search that
/// is reported, and that complex with this certificate behind it is an input to which `replay` says Yes (`certified`).
///
/// At Yes and Undecided a search from the complex is reported, by the numbers of the plan: its flips are legal in order from this
/// complex on its places, and lead to the reported end, on which no legal flip has an index above d/2; and each round is the work
/// of the workers, in which all that a worker committed stands whole, once and in order (`searched`). A closed and strongly
/// connected complex of dimension 1 gets a Yes, with any number of rounds (`circle`).
///
/// Each answer is Yes, No or Undecided with a report that fits, and without rounds an input has one (`lawful`).
pub fn sphere_law()
    ensures sound { NoIsSound }
    ensures certified { YesIsCertified }
    ensures searched { VerdictTellsSearch }
    ensures circle { CyclesAreDecided }
    ensures lawful { (plan : Numbers) → Lawful (meaning plan) }
{}
