// Laws of the job `manifold`.
ghost use Rattle.anneal_plan.specs.Numbers.{Numbers};
ghost use Rattle.job_answer.specs.Meanings.{Lawful};
ghost use Rattle.job_manifold.specs.Answers.{meaning};
ghost use Rattle.job_manifold.specs.Laws.{NoIsExact, NoIsSound, UndecidedTellsSearches, YesIsCertified};

/// At No the bytes tell a complex, and the text names the least ridge that doesn't lie in two facets, or the least face whose link
/// lacks a fact of a sphere: no list of legal flips leads that link to the boundary of a simplex (`sound`). A complex gets a No
/// exactly where it has such a ridge or such a face (`exact`). At Yes the text is a certificate of the complex, and that complex
/// with this certificate behind it is an input to which `replay` says Yes, where it isn't too long for one (`certified`).
///
/// At Undecided the text names the vertices whose links stay open, and the search of each of these links, by the numbers of the
/// plan, is reported: its flips are legal in order from this link on its places, and lead to the reported end; and each round is
/// the work of the workers, in which all that a worker committed stands whole, once and in order. The dimension is then 2 or more,
/// and for each other vertex there are flips (`searched`).
///
/// Each answer is Yes, No or Undecided with a report that fits (`lawful`).
pub fn manifold_law()
    ensures sound { NoIsSound }
    ensures exact { NoIsExact }
    ensures certified { YesIsCertified }
    ensures searched { UndecidedTellsSearches }
    ensures lawful { (plan : Numbers) → Lawful (meaning plan) }
{}
