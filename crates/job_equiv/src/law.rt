// Laws of the job `equiv`.
ghost use Rattle.anneal_plan.specs.Numbers.{Numbers};
ghost use Rattle.job_answer.specs.Meanings.{Lawful};
ghost use Rattle.job_equiv.specs.Answers.{meaning};
ghost use Rattle.job_equiv.specs.Laws.{NoIsSound, YesIsOneList, VerdictTellsSearches};

/// At No the bytes tell two complexes, the text names the first fact in which they differ, and no list of legal flips leads from the
/// first to an image of the second (`sound`). At Yes the text is a certificate of the first complex: one list of flips that leads
/// from it to a complex that the map of the text takes to the second; and the first complex with this certificate behind it is an
/// input to which `replay` says Yes (`one_list`).
///
/// At Yes and Undecided a search from each complex is reported, by the numbers of the plan: its flips are legal in order from the
/// complex on its places, and lead to the reported end; and each round is the work of the workers, in which all that a worker
/// committed stands whole, once and in order (`searched`).
///
/// Each answer is Yes, No or Undecided with a report that fits, and without rounds an input has one (`lawful`).
pub fn equiv_law()
    ensures sound { NoIsSound }
    ensures one_list { YesIsOneList }
    ensures searched { VerdictTellsSearches }
    ensures lawful { (plan : Numbers) → Lawful (meaning plan) }
{}
