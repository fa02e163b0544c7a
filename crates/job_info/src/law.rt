// Laws of the job `info`.
ghost use Rattle.job_answer.specs.Meanings.{Lawful};
ghost use Rattle.job_info.specs.Answers.{meaning};
ghost use Rattle.job_info.specs.Laws.{YesTellsFacts, NeverSaysNo};

/// At Yes the bytes tell a complex, and the text describes it (`facts`). There is no No (`info`). Each answer is a Yes, and an
/// input has one (`lawful`).
pub fn info_law()
    ensures facts { YesTellsFacts }
    ensures info { NeverSaysNo }
    ensures lawful { Lawful meaning }
{}
