// Laws of the job `replay`.
ghost use Rattle.job_answer.specs.Meanings.{Lawful};
ghost use Rattle.job_replay.specs.Answers.{meaning};
ghost use Rattle.job_replay.specs.Laws.{YesIsCertified};

/// A Yes is exactly that the bytes tell a complex and a certificate, and that the certificate shows what it states: for one of a
/// sphere, that its flips are legal in order from that complex and end in the boundary of a simplex (`yes`). Each answer is Yes or
/// No, and an input has one (`lawful`).
pub fn replay_law()
    ensures yes { YesIsCertified }
    ensures lawful { Lawful meaning }
{}
