// Laws of the job `iso`.
ghost use Rattle.job_answer.specs.Meanings.{Lawful};
ghost use Rattle.job_iso.specs.Answers.{meaning};
ghost use Rattle.job_iso.specs.Laws.{YesTellsMap, NoHasNoMap};

/// At Yes the text has the least map that takes the first complex to the second (`yes`), and at No no map does (`no`). Each answer
/// is one of these, and an input has one (`lawful`).
pub fn iso_law()
    ensures yes { YesTellsMap }
    ensures no { NoHasNoMap }
    ensures lawful { Lawful meaning }
{}
